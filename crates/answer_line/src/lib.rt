// The line of an answer: the texts of its variables, parted by commas, within 1,024 bytes.
#![tactic(auto)]

ghost use Rattle.std.specs.Prelude.{◌≡◌, ◌<◌, ◌≤◌, true, ◌++◌, length, drop, replicate};
ghost use Rattle.answer_line.specs.declared.Overlong.TheVariants.{Text as text};
ghost use Rattle.answer_line.specs.Lines.{line_of, PutsComma, PutsText, PutsField, PutsLine, WritesLine, FieldsTell, ended};

use bank::{Bank, Refusal};

// What did not fit: a comma, or a text, which the bank refused.
#[derive(Clone, Copy, PartialEq, Eq, Debug)]
pub enum Overlong {
    Comma,
    Text(Refusal),
}

impl From<Refusal> for Overlong {
    ghost from_gives = { λ e r. r ≡ text e };

    fn from(e: Refusal) -> Overlong {
        Overlong::Text(e)
    }
}

// A line that is written to the front of lent bytes: the texts are those of a live store, and the next piece begins at `end`.
#[derive(Drop)]
struct Line<'a, 'b, B: Bank> {
    bank: &'a B,
    store: u16,
    bytes: &'b mut [u8],
    end: usize,
    ghost live: { (B.Bank.view.meaning bank.now).live store ≡ true },
    ghost room: { 1024 ≤ length bytes.now },
    ghost within: { end ≤ 1024 },
}

impl<'a, 'b, B: Bank> Line<'a, 'b, B> {
    // Puts a comma.
    fn put_comma(&mut self) -> Result<(), Overlong>
        ensures lender { self.new.bytes.ghost_name ≡ self.old.bytes.ghost_name }
        ensures source { (self.new.bank ≡ self.old.bank) × (self.new.store ≡ self.old.store) }
        ensures puts { PutsComma self.old.end self.old.bytes.now self.new.bytes.now (ended self.new.end result) }
    {
        if self.end == 1024 {
            return Err(Overlong::Comma);
        }
        self.bytes[self.end] = b',';
        self.end += 1;
        Ok(())
    }

    // Puts the text of a variable.
    fn put_text(&mut self, var: u16) -> Result<(), Overlong>
        requires { var < 16 }
        ensures lender { self.new.bytes.ghost_name ≡ self.old.bytes.ghost_name }
        ensures source { (self.new.bank ≡ self.old.bank) × (self.new.store ≡ self.old.store) }
        ensures puts { PutsText ((B.Bank.view.meaning self.old.bank.now).text self.old.store var) self.old.end self.old.bytes.now self.new.bytes.now (ended self.new.end result) }
    {
        let len = self
            .bank
            .print(self.store, var, &mut self.bytes[self.end..1024])?;
        self.end += len;
        Ok(())
    }

    // Puts the text of a variable, behind a comma unless it is the first.
    fn put_field(&mut self, var: u16) -> Result<(), Overlong>
        requires { var < 16 }
        ensures lender { self.new.bytes.ghost_name ≡ self.old.bytes.ghost_name }
        ensures source { (self.new.bank ≡ self.old.bank) × (self.new.store ≡ self.old.store) }
        ensures puts { PutsField ((B.Bank.view.meaning self.old.bank.now).text self.old.store) var self.old.end self.old.bytes.now self.new.bytes.now (ended self.new.end result) }
    {
        if var > 0 {
            self.put_comma()?;
        }
        self.put_text(var)
    }

    // Puts the fields of a line.
    fn put_fields(&mut self, count: u16) -> Result<(), Overlong>
        requires known { count ≤ 16 }
        requires front { self.old.end ≡ 0 }
        ensures lender { self.new.bytes.ghost_name ≡ self.old.bytes.ghost_name }
        ensures puts { PutsLine ((B.Bank.view.meaning self.old.bank.now).text self.old.store) count self.old.bytes.now self.new.bytes.now (ended self.new.end result) }
    {
        for var in 0..count {
            self.put_field(var)?;
        }
        Ok(())
    }

    // Makes the bytes zero that a line may have.
    fn clear(&mut self)
        ensures lender { self.new.bytes.ghost_name ≡ self.old.bytes.ghost_name }
        ensures cleared { self.new.bytes.now ≡ replicate 1024 0 ++ drop 1024 self.old.bytes.now }
    {
        let bytes = &mut *self.bytes;
        bytes[..1024].fill(0);
    }
}

// Puts the texts of the first `count` variables of a store, parted by commas, at the front of `buffer`, and answers the line's length. Where it
// does not fit, the bytes that it may have are zero.
pub fn write_line<B: Bank>(
    bank: &B,
    store: u16,
    count: u16,
    buffer: &mut [u8],
) -> Result<usize, Overlong>
    requires live { (B.Bank.view.meaning bank.now).live store ≡ true }
    requires known { count ≤ 16 }
    requires room { 1024 ≤ length buffer.old }
    ensures writes { WritesLine (B.Bank.view.meaning bank.now) store count buffer.old buffer.new result }
    ensures tells { FieldsTell (B.Bank.view.meaning bank.now) store count (line_of ((B.Bank.view.meaning bank.now).text store) count) }
{
    let mut line = Line {
        bank,
        store,
        bytes: buffer,
        end: 0,
    };
    if let Err(o) = line.put_fields(count) {
        line.clear();
        return Err(o);
    }
    Ok(line.end)
}
