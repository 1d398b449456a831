// Writes the text of a variable.
ghost use Rattle.std.specs.Prelude.{◌≡◌, ℕ, ◌<◌, ◌≤◌};
ghost use Rattle.std.specs.Int.Signed.{mag};
ghost use Rattle.texts.specs.Pieces.{Adds};
ghost use Rattle.semitones.specs.Cells.{shown, apart};

use crate::cells::Record;
use texts::Writer;

// Adds the distance from the variable that is named, after its sign, and nothing at distance 0.
fn put_apart(text: &mut Writer, by: i32)
    ensures { Adds (apart by) text.old text.new }
{
    let far = by.unsigned_abs();
    if by > 0 {
        text.put_after(b'+', far);
    } else if by < 0 {
        text.put_after(b'-', far);
    }
}

// Adds the text of a variable.
pub fn write(r: &Record, var: u16, text: &mut Writer)
    requires within { var < 256 }
    ensures { Adds (shown r.now var) text.old text.new }
{
    let cell = r.at(var + 1);
    if cell.root == 0 {
        text.put_signed(cell.by);
    } else {
        text.put_after(b'_', (cell.root - 1) as u32);
        put_apart(text, cell.by);
    }
}
