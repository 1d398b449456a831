// Each call of a draft against the rule that it names: a rule may stand behind its calls, so this comes last.
ghost use Rattle.std.specs.Prelude.{◌≡◌, IfErr};
ghost use Rattle.book.specs.Drafts.{entries, head_at, misfitted};
ghost use Rattle.book.specs.Reading.{heads, call_fault_lem, misfit};
ghost use Rattle.line.specs.Says.{says};

use super::drafts::Draft;
use super::refusal::{Barred, Cause, Refusal};
use line::Line;

impl Draft {
    // How many parameters a rule has, if there is one of that number.
    fn params_of(&self, rule: u8) -> Option<u8>
        ensures { result ≡ head_at (heads (entries self.now)) rule }
    {
        self.params.as_slice().get(rule as usize).copied()
    }

    // Why the line's call does not fit its rule.
    fn call_fault(&self, line: Line) -> Option<Cause>
        ensures { result ≡ call_fault_lem (heads (entries self.now)) (says line) }
    {
        let Line::Call(call) = line else {
            return None;
        };
        let Some(params) = self.params_of(call.rule) else {
            return Some(Cause::NoSuchRule);
        };
        if call.slots.len() != params as usize {
            return Some(Cause::SlotCount);
        }
        None
    }

    // The first call that does not fit its rule.
    #[tactic(auto, using(crate::proofs::Calling::misfit_on, crate::proofs::Calling::misfit_here))]
    pub(crate) fn check_calls(&self) -> Result<(), Refusal>
        ensures first { misfitted result ≡ misfit (heads (entries self.now)) 1 (entries self.now) }
        ensures field { IfErr result (λ e. e.field ≡ 2) }
    {
        for (i, listed) in self.listed.as_slice().iter().enumerate() {
            if let Some(cause) = self.call_fault(listed.line) {
                // The second field names the rule.
                return Err(Barred { cause, field: 2 }.at(i + 1));
            }
        }
        Ok(())
    }
}
