// Why a search did not do what it was asked.
ghost use Rattle.std.specs.Prelude.{◌≡◌};
ghost use Rattle.search.specs.Refusals.{number, halted};
ghost use Rattle.search.specs.declared.refusal.Refusal.TheVariants.{NoStock as no_stock, LineTooLong as line_too_long};

use answer_line::Overlong;
use bank::Refusal as BankRefusal;
use frontier::Stop;

// Where a run was when its next step could not be made: its steps, those since the pose, and the line of the goal.
#[derive(Clone, Copy, Debug, PartialEq, Eq)]
pub struct Halt {
    pub steps: u32,
    pub total: u32,
    pub line: u16,
}

#[derive(Clone, Copy, Debug, PartialEq, Eq)]
pub enum Refusal {
    NoSuchRule,
    // The bank does not know the code of a tell, or not with so many variables: the first such line.
    UnknownTell { line: u16 },
    NoStock(BankRefusal),
    NothingPosed,
    AnswerWaits,
    TooManySteps,
    TooManyNodes(Halt),
    NoVariable(Halt),
    NoStore(Halt, BankRefusal),
    NoAnswer,
    // A line may need 1,024 bytes.
    ShortBuffer,
    LineTooLong(Overlong),
}

impl From<BankRefusal> for Refusal {
    ghost from_gives = { λ e r. r ≡ no_stock e };

    fn from(e: BankRefusal) -> Refusal {
        Refusal::NoStock(e)
    }
}

impl From<Overlong> for Refusal {
    ghost from_gives = { λ e r. r ≡ line_too_long e };

    fn from(e: Overlong) -> Refusal {
        Refusal::LineTooLong(e)
    }
}

impl Refusal {
    // Of a run that could not make its next step.
    pub(crate) fn halted(stop: Stop, halt: Halt) -> Refusal
        ensures { result ≡ halted stop halt }
    {
        match stop {
            Stop::Nodes => Refusal::TooManyNodes(halt),
            Stop::Variables => Refusal::NoVariable(halt),
            Stop::Stores(e) => Refusal::NoStore(halt, e),
        }
    }

    // The number by which the refusal is known outside. Variants that hold what is known of a refusal have no discriminants to cast.
    pub fn number(self) -> u8
        ensures { result ≡ number self }
    {
        match self {
            Refusal::NoSuchRule => 11,
            Refusal::UnknownTell { .. } => 12,
            Refusal::NoStock(_) => 13,
            Refusal::NothingPosed => 14,
            Refusal::AnswerWaits => 15,
            Refusal::TooManySteps => 16,
            Refusal::TooManyNodes(_) => 17,
            Refusal::NoVariable(_) => 18,
            Refusal::NoStore(_, _) => 19,
            Refusal::NoAnswer => 20,
            Refusal::ShortBuffer => 21,
            Refusal::LineTooLong(_) => 22,
        }
    }
}
