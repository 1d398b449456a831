// A bank of stores over trees: a variable is a whole number or a pair of values.
#![tactic(auto)]

mod cells;
mod classes;
mod joins;
mod levels;
mod reading;
mod slots;
mod store;
mod tasks;
mod tells;
mod text;

ghost use Rattle.std.specs.Prelude.{◌≡◌, ℕ, ◌<◌, ◌≤◌, min, false, length, count_by, MatchOption};
ghost use Rattle.records.specs.Slots.{idle, live_at, Listed, Keeps, Stands};
ghost use Rattle.records.specs.Vacant.{vacant, Fits};
ghost use Rattle.trees.specs.Kind.{trees};
ghost use Rattle.trees.specs.Values.{Kept};
ghost use Rattle.trees.specs.Meaning.{means};
ghost use Rattle.trees.specs.Says.{TextsSay};
ghost use Rattle.trees.specs.laws.All.{tree_laws};

use bank::{Bank, Constraint, Effect, Refusal};
pub use cells::{Cell, Form, Store};
use reading::{arity, task};
use records::{Slot, Vacancies, fork, idle_all, open, place, print, release, vacancy};
use slots::tell;

// The stores lie in lent slots, one in each. The slots lie here and in no struct of their own, so that a bank can be held, handed on and
// searched over in its callers' hands: a `&mut` one struct further in is not followed there.
#[derive(Drop)]
pub struct Trees<'a> {
    slots: &'a mut [Slot<Store>],
    vacancies: Vacancies,
    ghost small: { length slots.now ≤ 1024 },
    ghost fits: { Fits vacancies },
    ghost counted: { length (vacant vacancies) ≡ count_by idle slots.now },
    ghost listed: { Listed slots.now (vacant vacancies) },
    ghost kept: { Keeps Kept slots.now },
}

impl<'a> Trees<'a> {
    // The bank over the first 1,024 of the slots, whatever they hold.
    pub fn new(slots: &'a mut [Slot<Store>]) -> Trees<'a>
        ensures idle { (i : ℕ) → (means result.slots.now (length (vacant result.vacancies))).live i ≡ false }
        ensures spare { length (vacant result.vacancies) ≡ min (length slots.old) 1024 }
    {
        let n = slots.len().min(1024);
        let part = &mut slots[0..n];
        let spare = idle_all(part);
        Trees {
            slots: part,
            vacancies: Vacancies::new(spare),
        }
    }

    // What the texts say of the solutions.
    pub fn texts_say(&self)
        ensures { TextsSay (means self.now.slots.now (length (vacant self.now.vacancies))) }
    {}

    // Where a store stands.
    fn place(&self, store: u16) -> Result<usize, Refusal>
        ensures { Stands self.now.slots.now store result }
    {
        place(self.slots, store)
    }

    // An idle slot, unless there is none: the one that is taken next.
    fn vacancy(&self) -> Option<u16>
        ensures { MatchOption result (length (vacant self.now.vacancies) ≡ 0) (λ i. (i < length self.now.slots.now) × (live_at self.now.slots.now i ≡ false)) }
    {
        vacancy(self.slots, &self.vacancies)
    }
}

impl<'a> Bank for Trees<'a> {
    const V: usize = 256;

    ghost view = { record { variables = 256; kind = trees; meaning = λ b. means b.slots.now (length (vacant b.vacancies)); laws = tree_laws (λ b. b.slots.now) (λ b. length (vacant b.vacancies)) (λ b. b.kept) } };

    fn variables() -> usize
        ensures { result ≡ 256 }
    {
        Self::V
    }

    fn knows(&self, code: u8) -> Option<u8> {
        arity(code)
    }

    fn spare(&self) -> u16 {
        self.vacancies.len()
    }

    fn open(&mut self) -> Result<u16, Refusal> {
        let slots = &mut *self.slots;
        open(slots, &mut self.vacancies)
    }

    fn fork(&mut self, store: u16) -> Result<u16, Refusal> {
        let slots = &mut *self.slots;
        fork(slots, &mut self.vacancies, store)
    }

    fn release(&mut self, store: u16) -> Result<(), Refusal> {
        let slots = &mut *self.slots;
        release(slots, &mut self.vacancies, store)
    }

    fn tell(&mut self, store: u16, constraint: &Constraint) -> Result<Effect, Refusal> {
        let at = self.place(store)?;
        let t = task(constraint)?;
        let aside = self.vacancy();
        let slots = &mut *self.slots;
        tell(slots, aside, at, t)
    }

    fn print(&self, store: u16, var: u16, part: &mut [u8]) -> Result<usize, Refusal> {
        print(self.slots, store, var, part)
    }
}
