// Classes joined in place.
ghost use Rattle.std.specs.Prelude.{◌≡◌, ℕ, ◌<◌, ◌≤◌};
ghost use Rattle.std.specs.Int.Signed.{mag};
ghost use Rattle.semitones.specs.Cells.{by_of, Sound};
ghost use Rattle.semitones.specs.Joins.{Moved, Joins};

use crate::cells::{Edge, Record};
use bank::{Effect, Refusal};

// Puts the class of `from` under `to`, where `from` lies `gap` above `to`.
fn shift(r: &mut Record, from: u16, to: u16, gap: i32)
    requires few { r.old.used ≤ 257 }
    requires far { (a : ℕ) → mag (by_of r.old a) ≤ 1000000 }
    requires little { mag gap ≤ 1000000 }
    requires inside { from < r.old.used }
    ensures { Moved from to gap r.old r.new }
{
    r.whole();
    let cells = &mut r.cells[0..r.used as usize];
    for cell in cells.iter_mut() {
        if cell.root == from {
            cell.root = to;
            cell.by += gap;
        }
    }
}

// Joins the classes of an edge's nodes, or says that the edge holds already, or that it never does.
pub fn join(r: &mut Record, e: &Edge) -> Result<Effect, Refusal>
    requires sound { Sound r.old }
    ensures { Joins r.old r.new e.now result }
{
    let a = r.at(e.a);
    let b = r.at(e.b);
    let gap = e.gap(a.by, b.by);
    if a.root == b.root {
        return if gap == 0 {
            Ok(Effect::Kept)
        } else {
            Err(Refusal::Contradiction)
        };
    }
    r.reach(e.a.max(e.b) + 1);
    if a.root < b.root {
        shift(r, b.root, a.root, gap);
    } else {
        shift(r, a.root, b.root, -gap);
    }
    Ok(Effect::Narrowed)
}
