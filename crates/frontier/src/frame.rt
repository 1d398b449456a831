// Frames: the variable of each slot in scope.
ghost use Rattle.std.specs.Prelude.{◌≡◌, ◌<◌, ◌≤◌, [], ◌∷◌, ◌++◌, length};
ghost use Rattle.bank.specs.Conditions.{listed, condition};
ghost use Rattle.book.specs.Table.{InScope};
ghost use Rattle.row.specs.Shorts.{items};
ghost use Rattle.machine.specs.Machine.{upto, vars_of_lem, told_at};

use bank::{Constraint, Vars};
use book::{ShortRow, Tell};

// The variable of each slot in scope.
pub type Frame = ShortRow<u16, 16>;

// The variables 0 to p - 1.
pub fn first(p: u8) -> Frame
    requires { p ≤ 16 }
    ensures { items result ≡ upto p }
{
    let mut frame = ShortRow::new(0);
    for variable in 0..u16::from(p) {
        frame.push(variable);
    }
    frame
}

// The frame's variables at some slots.
pub(crate) fn select<const N: usize>(frame: &Frame, slots: &ShortRow<u8, N>) -> ShortRow<u16, N>
    requires { InScope N (length (items frame.now)) slots.now }
    ensures { items result ≡ vars_of_lem (items frame.now) (items slots.now) }
{
    let places = slots.as_slice();
    let scope = frame.as_slice();
    // By place, and counted once: a push for each would wait for the one before.
    let mut variables = [0u16; N];
    for i in 0..places.len() {
        variables[i] = scope[places[i] as usize];
    }
    ShortRow::of(variables, places.len())
}

// The frame with one variable more.
pub(crate) fn extend(frame: &Frame, n: u16) -> Frame
    requires { length (items frame.now) < 16 }
    ensures { items result ≡ items frame.now ++ n ∷ [] }
{
    let mut longer = *frame;
    longer.push(n);
    longer
}

// Three variables at most, as a constraint has them.
fn vars_of(variables: &[u16]) -> Vars
    requires { length variables.now ≤ 3 }
    ensures { listed result ≡ variables.now }
{
    match variables {
        [] => Vars::Zero,
        [x] => Vars::One(*x),
        [x, y] => Vars::Two(*x, *y),
        [x, y, z, ..] => Vars::Three(*x, *y, *z),
    }
}

// What a tell says of the frame's variables.
pub(crate) fn constraint_at(frame: &Frame, tell: &Tell) -> Constraint
    requires { InScope 3 (length (items frame.now)) tell.now.slots }
    ensures { condition result ≡ told_at tell.now.code tell.now.k (items tell.now.slots) (items frame.now) }
{
    let at = select(frame, &tell.slots);
    Constraint {
        code: tell.code,
        k: i32::from(tell.k),
        vars: vars_of(at.as_slice()),
    }
}
