// Writes the text of a variable.
ghost use Rattle.std.specs.Prelude.{◌≡◌, ◌<◌, true};
ghost use Rattle.texts.specs.Pieces.{Adds};
ghost use Rattle.trees.specs.Stores.{Shaped};
ghost use Rattle.trees.specs.Values.{value, deep};
ghost use Rattle.trees.specs.Texts.{show};

use crate::cells::{Form, Store};
use crate::classes::{known, root_of};
use texts::Writer;

// Adds the text of a variable whose value has at most `depth` levels. It stops where there is no room, so that the work follows the length
// of the part, however long the text is.
pub fn write(r: &Store, depth: u16, x: u16, text: &mut Writer)
    requires shaped { Shaped r.now }
    requires within { x < 256 }
    requires levels { deep r.now depth x ≡ true }
    ensures { Adds (show (value r.now depth x)) text.old text.new }
{
    if text.overruns() {
        return;
    }
    match known(r, x) {
        Form::Free => text.put_after(b'_', root_of(r, x) as u32),
        Form::Number(k) => text.put_signed(k),
        Form::Pair(a, b) => {
            text.put(b'(');
            write(r, depth - 1, a, text);
            text.put(b'.');
            write(r, depth - 1, b, text);
            text.put(b')');
        }
    }
}
