// How a line is read: its word first, then the count of its fields, then its numbers from left to right.
ghost use Rattle.std.specs.Prelude.{◌≡◌, ◌<◌, ◌≤◌, true, [], length, OnOk};
ghost use Rattle.fields.specs.Cursor.{here};
ghost use Rattle.line.specs.Moves.{Next, Stays};
ghost use Rattle.line.specs.Reading.{answered, slotted, takes, number_of, signed_of, first_word, first_number, first_signed, as_slots, ruled, called, told, numbered, outcome, Exact};

use super::{Call, Fault, Line, Tell, Word};
use fields::{Field, Fields};
use numeral::{number, signed_number};
use row::ShortRow;

// That `field` writes no number, or none in range.
fn no_number(field: Field) -> Fault
    ensures { result ≡ Fault.BadNumber field.entry.number }
{
    Fault::BadNumber {
        field: field.number,
    }
}

// The number from 0 to `max` that `field` writes.
fn number_of(field: Field, max: u8) -> Result<u8, Fault>
    ensures { result ≡ number_of max field.entry.number field.entry.bytes.now }
{
    let n = number(field.bytes, max as u32).ok_or(no_number(field))?;
    Ok(n as u8)
}

// The next field, as a number from 0 to `max`. This, `next_signed` and `next_word` are one shape, but as one function over a closure it would
// have to pass on what the closure asks and gives, which is longer than their two lines.
fn next_number(fields: &mut Fields, max: u8) -> Result<u8, Fault>
    ensures does { result ≡ first_number max fields.old.given (here fields.old) }
    ensures next { OnOk result (Next fields.old fields.new) }
    ensures rest { Stays fields.old fields.new }
{
    let field = fields.next().ok_or(Fault::FieldCount)?;
    number_of(field, max)
}

// The number from `-max` to `max` that `field` writes.
fn signed_of(field: Field, max: u16) -> Result<i16, Fault>
    requires { max ≤ 32767 }
    ensures { result ≡ signed_of max field.entry.number field.entry.bytes.now }
{
    let k = signed_number(field.bytes, max).ok_or(no_number(field))?;
    Ok(k as i16)
}

// The next field, as a number from `-max` to `max`.
fn next_signed(fields: &mut Fields, max: u16) -> Result<i16, Fault>
    requires { max ≤ 32767 }
    ensures does { result ≡ first_signed max fields.old.given (here fields.old) }
    ensures next { OnOk result (Next fields.old fields.new) }
    ensures rest { Stays fields.old fields.new }
{
    let field = fields.next().ok_or(Fault::FieldCount)?;
    signed_of(field, max)
}

// All that is left of the line, as slots.
fn next_slots<const N: usize>(fields: &mut Fields) -> Result<ShortRow<u8, N>, Fault>
    requires few { length (here fields.old) ≤ N }
    requires short { N < 65536 }
    ensures does { slotted result ≡ as_slots fields.old.given [] (here fields.old) }
    ensures rest { Stays fields.old fields.new }
{
    let mut slots = ShortRow::new(0);
    while let Some(field) = fields.next() {
        slots.push(number_of(field, 15)?);
    }
    Ok(slots)
}

// Behind the word `rule`: how many parameters.
fn rule_line(fields: &mut Fields) -> Result<Line, Fault>
    ensures does { answered result ≡ ruled fields.old.given (here fields.old) }
    ensures rest { Stays fields.old fields.new }
{
    let params = next_number(fields, 16)?;
    Ok(Line::Rule { params })
}

// Behind the word `call`: the rule, and the slots for its parameters.
fn call_line(fields: &mut Fields) -> Result<Line, Fault>
    requires { length (here fields.old) ≤ 17 }
    ensures does { answered result ≡ called fields.old.given (here fields.old) }
    ensures rest { Stays fields.old fields.new }
{
    let rule = next_number(fields, 63)?;
    let slots = next_slots(fields)?;
    Ok(Line::Call(Call { rule, slots }))
}

// Behind the word `tell`: a code and a number for the constraint, and its slots.
fn tell_line(fields: &mut Fields) -> Result<Line, Fault>
    requires { length (here fields.old) ≤ 5 }
    ensures does { answered result ≡ told fields.old.given (here fields.old) }
    ensures rest { Stays fields.old fields.new }
{
    let code = next_number(fields, 255)?;
    let k = next_signed(fields, 1000)?;
    let slots = next_slots(fields)?;
    Ok(Line::Tell(Tell { code, k, slots }))
}

// The numbers behind a word that takes as many fields as are left.
fn numbers_behind(word: Word, fields: &mut Fields) -> Result<Line, Fault>
    requires { takes word (length (here fields.old)) ≡ true }
    ensures does { answered result ≡ numbered word fields.old.given (here fields.old) }
    ensures rest { Stays fields.old fields.new }
{
    match word {
        Word::Rule => rule_line(fields),
        Word::And => Ok(Line::And),
        Word::Or => Ok(Line::Or),
        Word::New => Ok(Line::New),
        Word::Call => call_line(fields),
        Word::Tell => tell_line(fields),
    }
}

// The word that the line begins with.
fn next_word(fields: &mut Fields) -> Result<Word, Fault>
    ensures does { result ≡ first_word (here fields.old) }
    ensures next { OnOk result (Next fields.old fields.new) }
    ensures rest { Stays fields.old fields.new }
{
    let field = fields.next().ok_or(Fault::UnknownWord)?;
    Word::try_from(field.bytes)
}

// The line whose fields `fields` has before it.
pub fn read_line(fields: &mut Fields) -> Result<Line, Fault>
    ensures does { answered result ≡ outcome fields.old.given (here fields.old) }
    ensures exact { Exact (here fields.old) (answered result) }
    // The cursor stays in its line.
    ensures rest { Stays fields.old fields.new }
{
    let word = next_word(fields)?;
    if !word.takes(fields.left()) {
        return Err(Fault::FieldCount);
    }
    numbers_behind(word, fields)
}
