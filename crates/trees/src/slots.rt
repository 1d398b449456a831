// What the records of the bank say to the calls over lent slots, and stores told there. Only the part in use is worked on.
ghost use Rattle.std.specs.Prelude.{◌≡◌, ◌<◌, true, false, length, ◌≢◌};
ghost use Rattle.std.specs.Option.{ForSome};
ghost use Rattle.records.specs.Slots.{live_at};
ghost use Rattle.trees.specs.Kind.{trees};
ghost use Rattle.trees.specs.Stores.{solves};
ghost use Rattle.trees.specs.Values.{Sound};
ghost use Rattle.trees.specs.laws.Blanks.{few_used, begun, followed};
ghost use Rattle.trees.specs.Meaning.{text_of, SoundAt, ToldAside, ToldAt};

use crate::cells::{Cell, Store};
use crate::classes::alike;
use crate::store::narrow;
use crate::tasks::Task;
use crate::tells::{decide, tell_copied};
use crate::text::write;
use bank::{Effect, Refusal};
use records::{Sense, Slot, copy};
use texts::Writer;

impl Sense<256> for Cell {
    const V: u16 = 256;

    ghost V = { 256 };

    ghost kind = { trees };

    ghost solutions = { solves };

    ghost text = { text_of };

    ghost sound = { Sound };

    fn write(r: &Store, var: u16, writer: &mut Writer) {
        write(r, 256, var, writer);
    }

    ghost few = { few_used };

    ghost begins = { begun };

    ghost follows = { followed };
}

// Tells a store by narrowing what it says in an idle slot.
fn tell_aside(
    slots: &mut [Slot<Store>],
    store: usize,
    aside: usize,
    t: Task,
) -> Result<Effect, Refusal>
    requires source { store < length slots.old }
    requires target { aside < length slots.old }
    requires apart { store ≢ aside }
    requires sound { SoundAt store slots.old }
    ensures { ToldAside store aside t slots.old slots.new result }
{
    copy(slots, store, aside);
    narrow(&mut slots[aside].record, t)?;
    let shared = &slots[..];
    if alike(&shared[store].record, &shared[aside].record) {
        return Ok(Effect::Kept);
    }
    copy(slots, aside, store);
    Ok(Effect::Narrowed)
}

// Tells a store what does not show at once: in an idle slot, and only where none is idle on a copy.
fn tell_apart(
    slots: &mut [Slot<Store>],
    aside: Option<u16>,
    store: usize,
    t: Task,
) -> Result<Effect, Refusal>
    requires live { live_at slots.old store ≡ true }
    requires aside { ForSome aside (λ i. (i < length slots.old) × (live_at slots.old i ≡ false)) }
    requires sound { SoundAt store slots.old }
    ensures { ToldAt store t slots.old slots.new result }
{
    match aside {
        None => tell_copied(&mut slots[store].record, t),
        Some(i) => tell_aside(slots, store, i as usize, t),
    }
}

// Tells a store, where it stands if what is asked shows at once.
pub fn tell(
    slots: &mut [Slot<Store>],
    aside: Option<u16>,
    store: usize,
    t: Task,
) -> Result<Effect, Refusal>
    requires live { live_at slots.old store ≡ true }
    requires aside { ForSome aside (λ i. (i < length slots.old) × (live_at slots.old i ≡ false)) }
    requires sound { SoundAt store slots.old }
    ensures { ToldAt store t slots.old slots.new result }
{
    if let Some(answer) = decide(&mut slots[store].record, t) {
        return answer;
    }
    tell_apart(slots, aside, store, t)
}
