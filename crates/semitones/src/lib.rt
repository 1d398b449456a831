// A bank of stores over the whole numbers: which variables lie at which distance from each other, and which are numbers.
#![tactic(auto)]

mod cells;
mod classes;
mod edges;
mod names;
mod slots;

ghost use Rattle.std.specs.Prelude.{◌≡◌, ℕ, ◌≤◌, min, false, length, count_by};
ghost use Rattle.records.specs.Slots.{idle, Listed, Keeps, Stands};
ghost use Rattle.records.specs.Vacant.{vacant, Fits};
ghost use Rattle.semitones.specs.Cells.{Sound, stores};
ghost use Rattle.semitones.specs.Says.{AllSay};
ghost use Rattle.semitones.specs.View.{viewed};

use bank::{Bank, Constraint, Effect, Refusal};
pub use cells::{Cell, Record};
use classes::join;
use edges::{arity, edge};
use records::{Slot, Vacancies, fork, idle_all, open, place, print, release};

// The stores lie in lent slots, one in each. The slots lie here and in no struct of their own, so that a bank can be held, handed on and
// searched over in its callers' hands: a `&mut` one struct further in is not followed there.
#[derive(Drop)]
pub struct Semitones<'a> {
    slots: &'a mut [Slot<Record>],
    vacancies: Vacancies,
    ghost small: { length slots.now ≤ 1024 },
    ghost fits: { Fits vacancies },
    ghost counted: { length (vacant vacancies) ≡ count_by idle slots.now },
    ghost listed: { Listed slots.now (vacant vacancies) },
    ghost kept: { Keeps (λ r. ∥ Sound r ∥₁) slots.now },
}

impl<'a> Semitones<'a> {
    // A bank with no store, over the first 1,024 of the slots, whatever they hold. The others are not touched.
    pub fn new(slots: &'a mut [Slot<Record>]) -> Semitones<'a>
        ensures none { (s : ℕ) → (stores result.slots.now (length (vacant result.vacancies))).live s ≡ false }
        ensures spare { (stores result.slots.now (length (vacant result.vacancies))).spare ≡ min (length slots.old) 1024 }
    {
        let n = slots.len().min(1024);
        let part = &mut slots[0..n];
        let spare = idle_all(part);
        Semitones {
            slots: part,
            vacancies: Vacancies::new(spare),
        }
    }

    // Nothing to run: its contract is what the texts of all stores say of the solutions.
    pub fn texts_say(&self)
        ensures { AllSay 256 (stores self.now.slots.now (length (vacant self.now.vacancies))) }
    {}

    // Where a store stands.
    fn place(&self, store: u16) -> Result<usize, Refusal>
        ensures { Stands self.now.slots.now store result }
    {
        place(self.slots, store)
    }
}

impl<'a> Bank for Semitones<'a> {
    const V: usize = 256;

    ghost view = { viewed (λ s. s.slots.now) (λ s. length (vacant s.vacancies)) (λ s. s.kept) };

    fn variables() -> usize
        ensures { result ≡ 256 }
    {
        Self::V
    }

    fn knows(&self, code: u8) -> Option<u8> {
        arity(code)
    }

    fn spare(&self) -> u16 {
        self.vacancies.len()
    }

    fn open(&mut self) -> Result<u16, Refusal> {
        let slots = &mut *self.slots;
        open(slots, &mut self.vacancies)
    }

    fn fork(&mut self, store: u16) -> Result<u16, Refusal> {
        let slots = &mut *self.slots;
        fork(slots, &mut self.vacancies, store)
    }

    fn tell(&mut self, store: u16, constraint: &Constraint) -> Result<Effect, Refusal> {
        let at = self.place(store)?;
        let e = edge(constraint)?;
        let slots = &mut *self.slots;
        join(&mut slots[at].record, &e)
    }

    fn release(&mut self, store: u16) -> Result<(), Refusal> {
        let slots = &mut *self.slots;
        release(slots, &mut self.vacancies, store)
    }

    fn print(&self, store: u16, var: u16, part: &mut [u8]) -> Result<usize, Refusal> {
        print(self.slots, store, var, part)
    }
}
