// The calls that are the same in every bank over lent slots: what they do to the slots, and to the numbers of the idle ones.
ghost use Rattle.std.specs.Prelude.{◌≡◌, ℕ, ◌<◌, false, length, MatchOption};
ghost use Rattle.row.specs.Items.{Last};
ghost use Rattle.bank.specs.Calls.{Opens, Forks, Releases, Prints};
ghost use Rattle.records.specs.Slots.{live_at, means, Keeps, Stands};
ghost use Rattle.records.specs.Vacant.{vacant};
ghost use Rattle.records.specs.Shelves.{Shelved};

use crate::slots::{Slot, copy, is_live};
use crate::stored::Stored;
use crate::vacancies::Vacancies;
use bank::Refusal;
use texts::Writer;

// Where a store stands.
pub fn place<R: Copy>(slots: &[Slot<R>], store: u16) -> Result<usize, Refusal>
    ensures { Stands slots.now store result }
{
    if is_live(slots, store) {
        Ok(store as usize)
    } else {
        Err(Refusal::NotLive)
    }
}

// An idle slot, unless there is none: the one that is taken next.
#[tactic(auto, using(crate::proofs::Shelves::vacant_idle))]
pub fn vacancy<R: Stored>(slots: &[Slot<R>], vacancies: &Vacancies) -> Option<u16>
    requires { Shelved R.sound slots.now vacancies.now }
    ensures idle { MatchOption result (length (vacant vacancies.now) ≡ 0) (λ i. (i < length slots.now) × (live_at slots.now i ≡ false)) }
    ensures last { Last (vacant vacancies.now) result }
{
    vacancies.last()
}

// A store with all solutions.
pub fn open<R: Stored>(slots: &mut [Slot<R>], vacancies: &mut Vacancies) -> Result<u16, Refusal>
    requires { Shelved R.sound slots.old vacancies.old }
    ensures shelved { Shelved R.sound slots.new vacancies.new }
    ensures opens { Opens R.kind R.V (means R.solutions R.text slots.old (length (vacant vacancies.old))) (means R.solutions R.text slots.new (length (vacant vacancies.new))) result }
{
    let Some(at) = vacancy(slots, vacancies) else {
        return Err(Refusal::NoSpare);
    };
    let slot = &mut slots[at as usize];
    slot.record.clear();
    slot.live = true;
    vacancies.pop();
    Ok(at)
}

// A store with the solutions of another.
pub fn fork<R: Stored>(
    slots: &mut [Slot<R>],
    vacancies: &mut Vacancies,
    store: u16,
) -> Result<u16, Refusal>
    requires { Shelved R.sound slots.old vacancies.old }
    ensures shelved { Shelved R.sound slots.new vacancies.new }
    ensures forks { Forks (means R.solutions R.text slots.old (length (vacant vacancies.old))) (means R.solutions R.text slots.new (length (vacant vacancies.new))) store result }
{
    let from = place(slots, store)?;
    let Some(at) = vacancy(slots, vacancies) else {
        return Err(Refusal::NoSpare);
    };
    copy(slots, from, at as usize);
    slots[at as usize].live = true;
    vacancies.pop();
    Ok(at)
}

// Ends a store.
pub fn release<R: Stored>(
    slots: &mut [Slot<R>],
    vacancies: &mut Vacancies,
    store: u16,
) -> Result<(), Refusal>
    requires { Shelved R.sound slots.old vacancies.old }
    ensures shelved { Shelved R.sound slots.new vacancies.new }
    ensures releases { Releases (means R.solutions R.text slots.old (length (vacant vacancies.old))) (means R.solutions R.text slots.new (length (vacant vacancies.new))) store result }
{
    let at = place(slots, store)?;
    slots[at].live = false;
    vacancies.push(store);
    Ok(())
}

// Writes the text of a variable to the front of `part`, and answers its length.
pub fn print<R: Stored>(
    slots: &[Slot<R>],
    store: u16,
    var: u16,
    part: &mut [u8],
) -> Result<usize, Refusal>
    requires { Keeps (λ r. ∥ R.sound r ∥₁) slots.now }
    ensures { (spare : ℕ) → Prints R.V (means R.solutions R.text slots.now spare) store var part.old part.new result }
{
    let at = place(slots, store)?;
    if var >= R::V {
        return Err(Refusal::BadVariable);
    }
    let mut writer = Writer::new(part);
    slots[at].record.write(var, &mut writer);
    writer.finish().ok_or(Refusal::TextTooLong)
}
