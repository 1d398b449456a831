// Why a text is no book, and where.
ghost use Rattle.std.specs.Prelude.{◌≡◌, Some};
ghost use Rattle.book.specs.Printing.{explained, reported};
ghost use Rattle.book.specs.Reading.{number};

use std::fmt;

// What is wrong; several causes share a number.
#[derive(Clone, Copy, Debug, PartialEq)]
pub enum Cause {
    TextTooLong,
    UnknownWord,
    FieldCount,
    BadNumber,
    GoalNotAwaited,
    RuleTooEarly,
    TextEnds,
    TooManyRules,
    TooManyGoals,
    TooManySlots,
    NotInScope,
    NoSuchRule,
    SlotCount,
}

// Lines and fields count from 1; a text that is too long is refused at 0, 0.
#[derive(Clone, Copy, Debug, PartialEq)]
pub struct Refusal {
    pub cause: Cause,
    pub line: usize,
    pub field: usize,
}

// Why a line cannot stand, before its number is known.
#[derive(Clone, Copy)]
pub(crate) struct Barred {
    pub(crate) cause: Cause,
    pub(crate) field: usize,
}

impl Barred {
    // What is wrong is the line as a whole, said of its first field.
    pub(crate) fn line(cause: Cause) -> Barred
        ensures { result ≡ record { cause = cause; field = 1 } }
    {
        Barred { cause, field: 1 }
    }

    // What is wrong, on the line with this number.
    pub(crate) fn at(self, line: usize) -> Refusal
        ensures { result ≡ record { cause = self.cause; line = line; field = self.field } }
    {
        Refusal {
            cause: self.cause,
            line,
            field: self.field,
        }
    }
}

impl Cause {
    // The number by which the cause is known outside. Several causes share one, so that they are told one by one.
    pub fn number(self) -> u8
        ensures { result ≡ number self }
    {
        match self {
            Cause::TextTooLong => 1,
            Cause::UnknownWord => 2,
            Cause::FieldCount => 3,
            Cause::BadNumber => 4,
            Cause::GoalNotAwaited | Cause::RuleTooEarly | Cause::TextEnds => 5,
            Cause::TooManyRules | Cause::TooManyGoals | Cause::TooManySlots => 6,
            Cause::NotInScope => 7,
            Cause::NoSuchRule | Cause::SlotCount => 8,
        }
    }
}

// What is wrong, and what is expected in its place.
impl fmt::Display for Cause {
    ghost output = { λ cause. Some (explained cause) };

    fn fmt<W: fmt::Write>(&self, f: &mut fmt::Formatter<W>) -> fmt::Result {
        f.write_str(match self {
            Cause::TextTooLong => "the text is too long; a book has at most 65,536 bytes",
            Cause::UnknownWord =>
                "the line begins with no known word; expected rule, and, or, new, call or tell",
            Cause::FieldCount =>
                "the line has a wrong count of fields; expected rule,p or call,r with 0 to 16 slots or tell,c,k with 0 to 3 slots, and nothing behind and, or and new",
            Cause::BadNumber =>
                "the field is no number in range; expected digits without plus or leading zero: p 0 to 16, r 0 to 63, c 0 to 255, k -1000 to 1000, a slot 0 to 15",
            Cause::GoalNotAwaited =>
                "a goal stands here, but the rule before has its goal already; expected rule,p",
            Cause::RuleTooEarly =>
                "a rule begins here, but the one before lacks a goal; expected and, or, new, call or tell",
            Cause::TextEnds =>
                "the text ends here, but a goal is still awaited; expected and, or, new, call or tell",
            Cause::TooManyRules => "this is the 65th rule; a book has at most 64",
            Cause::TooManyGoals => "this is the 1,025th goal; a book has at most 1,024",
            Cause::TooManySlots => "this is the 17th slot in scope; a goal has at most 16",
            Cause::NotInScope =>
                "the slot is not in scope here; expected one of the rule's parameters or of the new slots around this goal",
            Cause::NoSuchRule => "there is no rule with this number; rules count from 0",
            Cause::SlotCount =>
                "the call gives the rule another number of slots than it has parameters",
        })
    }
}

// The line that says where a text is wrong, and in what.
impl fmt::Display for Refusal {
    ghost output = { λ refusal. Some (reported refusal) };

    fn fmt<W: fmt::Write>(&self, f: &mut fmt::Formatter<W>) -> fmt::Result {
        let number = self.cause.number();
        let line = self.line;
        let field = self.field;
        write!(f, "refused,{number},{line},{field}")
    }
}
