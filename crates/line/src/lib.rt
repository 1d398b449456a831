// One line of a rule book: what it says, or what is wrong with it.
#![tactic(auto)]

pub mod read;
pub mod words;

pub use read::read_line;
pub use row::{Row, ShortRow};

// A constraint at some slots: at most three.
#[derive(Clone, Copy)]
pub struct Tell {
    pub code: u8,
    pub k: i16,
    pub slots: ShortRow<u8, 3>,
}

// A rule with the slots for its parameters: at most sixteen.
#[derive(Clone, Copy)]
pub struct Call {
    pub rule: u8,
    pub slots: ShortRow<u8, 16>,
}

#[derive(Clone, Copy)]
pub enum Line {
    Rule { params: u8 },
    Tell(Tell),
    And,
    Or,
    New,
    Call(Call),
}

// The first field of a line.
#[derive(Clone, Copy, PartialEq)]
pub enum Word {
    Rule,
    And,
    Or,
    New,
    Call,
    Tell,
}

// What is wrong with a line by itself.
#[derive(Clone, Copy, Debug, PartialEq)]
pub enum Fault {
    UnknownWord,
    FieldCount,
    BadNumber { field: usize },
}
