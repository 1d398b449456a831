// What the records of the bank say to the calls over lent slots.
ghost use Rattle.semitones.specs.Whole.{whole};
ghost use Rattle.semitones.specs.Cells.{solves, shown, Sound};
ghost use Rattle.semitones.specs.laws.Blanks.{few_used, begun, followed};

use crate::cells::{Cell, Record};
use crate::names::write;
use records::Sense;
use texts::Writer;

impl Sense<257> for Cell {
    const V: u16 = 256;

    ghost V = { 256 };

    ghost kind = { whole };

    ghost solutions = { solves };

    ghost text = { shown };

    ghost sound = { Sound };

    fn write(r: &Record, var: u16, writer: &mut Writer) {
        write(r, var, writer);
    }

    ghost few = { few_used };

    ghost begins = { begun };

    ghost follows = { followed };
}
