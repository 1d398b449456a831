// The six words, and how many fields each takes.
ghost use Rattle.std.specs.Prelude.{◌≡◌, false};
ghost use Rattle.line.specs.Reading.{unless, word_of, least, most, takes};
ghost use Rattle.line.specs.declared.Fault.TheVariants.{UnknownWord};

use super::{Fault, Word};
use std::ops::RangeInclusive;

impl TryFrom<&[u8]> for Word {
    type Error = Fault;

    ghost try_from_gives = { λ field r. r ≡ unless UnknownWord (word_of field.now) };

    // The word that `field` is, byte for byte.
    fn try_from(field: &[u8]) -> Result<Word, Fault> {
        match field {
            b"rule" => Ok(Word::Rule),
            b"and" => Ok(Word::And),
            b"or" => Ok(Word::Or),
            b"new" => Ok(Word::New),
            b"call" => Ok(Word::Call),
            b"tell" => Ok(Word::Tell),
            _ => Err(Fault::UnknownWord),
        }
    }
}

impl Word {
    // How many fields may stand behind the word.
    fn fields(self) -> RangeInclusive<usize>
        ensures { result ≡ record { start = least self; end = most self; exhausted = false } }
    {
        match self {
            Word::Rule => 1..=1,
            Word::And | Word::Or | Word::New => 0..=0,
            Word::Call => 1..=17,
            Word::Tell => 2..=5,
        }
    }

    // `count` fields may stand behind the word.
    pub fn takes(self, count: usize) -> bool
        ensures { result ≡ takes self count }
    {
        self.fields().contains(&count)
    }
}
