// A place for one store, and what is done to a row of them.
ghost use Rattle.std.specs.Prelude.{◌≡◌, ℕ, ◌<◌, ◌≤◌, false, length, count_by, MatchOption, ◌≢◌, slice_index_or};
ghost use Rattle.records.specs.Slots.{idle, live_at, SameRecords, Copied};

use crate::stored::Stored;

// Whether a store stands there, and its record. Where none does, the record means nothing. The flag stands beside the record, and not
// around it as an `Option`, since a store begins in the record that is there: only the part in use is written.
#[derive(Clone, Copy)]
pub struct Slot<R> {
    pub live: bool,
    pub record: R,
}

impl<R> Slot<R> {
    // A slot with no store.
    pub fn idle(record: R) -> Slot<R>
        ensures live { result.live ≡ false }
        ensures same { result.record ≡ «record» }
    {
        Slot {
            live: false,
            record,
        }
    }
}

// Ends every store, and answers how many slots there are to spare.
pub fn idle_all<R: Copy>(slots: &mut [Slot<R>]) -> u16
    requires { length slots.old ≤ 1024 }
    ensures none { (i : ℕ) → live_at slots.new i ≡ false }
    ensures counted { result ≡ count_by idle slots.new }
    ensures all { result ≡ length slots.old }
    ensures same { SameRecords slots.old slots.new }
{
    for slot in slots.iter_mut() {
        slot.live = false;
    }
    slots.len() as u16
}

// The first slot with no store, or none exactly if there is none. It walks over the slots: a bank that keeps the numbers of its idle slots
// (`Vacancies`) takes the last of them.
#[tactic(auto, using(crate::proofs::Places::live_is))]
pub fn first_idle<R: Copy>(slots: &[Slot<R>]) -> Option<u16>
    requires { length slots.now ≤ 1024 }
    ensures { MatchOption result (count_by idle slots.now ≡ 0) (λ i. (i < length slots.now) × (live_at slots.now i ≡ false)) }
{
    for i in 0..slots.len() {
        if !slots[i].live {
            return Some(i as u16);
        }
    }
    None
}

// Whether a number is that of a store.
pub fn is_live<R: Copy>(slots: &[Slot<R>], store: u16) -> bool
    ensures { result ≡ live_at slots.now store }
{
    slots.get(store as usize).is_some_and(|slot| slot.live)
}

// Gives a slot a record like another's.
pub fn copy<R: Stored>(slots: &mut [Slot<R>], from: usize, to: usize)
    requires source { from < length slots.old }
    requires target { to < length slots.old }
    requires apart { from ≢ to }
    requires sound { (past : _) → ∥ R.sound (slice_index_or slots.old from past).record ∥₁ }
    ensures { Copied R.alike R.sound R.solutions from to slots.old slots.new }
{
    if from < to {
        let (front, back) = slots.split_at_mut(to);
        back[0].record.copy_from(&front[from].record);
    } else {
        let (front, back) = slots.split_at_mut(from);
        front[to].record.copy_from(&back[0].record);
    }
}
