// An interleaving search of the miniKanren family, as mathematics: each theorem is a clause of a function that does nothing.
#![tactic(auto)]

ghost use Rattle.machine.specs.Theorems.{OwnRulesFit, Deterministic, Complete, Sound, Dated, GoesOn};
ghost use Rattle.machine.specs.Faulty.{SameOtherwise};
ghost use Rattle.machine.specs.Examples.{TwoWays, BothWays, Again, Idle, LateTurnFails, RestFirstFails};

// For every kind, every well-formed book and every rule that fits it.
pub fn search_is_sound_and_complete()
    ensures own_rules_fit { OwnRulesFit }
    ensures deterministic { Deterministic }
    ensures complete { Complete }
    ensures sound { Sound }
    ensures dated { Dated }
    ensures goes_on { GoesOn }
{}

// Two machines that differ from this one in one choice each.
pub fn faulty_machines_are_refuted()
    ensures same_otherwise { SameOtherwise }
    ensures late_turn { LateTurnFails }
    ensures rest_first { RestFirstFails }
{}

// Books of a few goals, with their runs and weights.
pub fn examples_hold()
    ensures two_ways { TwoWays }
    ensures both_ways { BothWays }
    ensures again { Again }
    ensures idle { Idle }
{}
