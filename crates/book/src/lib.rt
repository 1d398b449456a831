// A rule book as a table of goals. Every value of `Book` is well formed, so its parts and calls are followed with no check.
#![tactic(auto)]

ghost use Rattle.std.specs.Prelude.{◌≡◌, ◌+◌, true, [], length};
ghost use Rattle.book.specs.Table.{nested, heads_of, calls_fit, rooted};
ghost use Rattle.row.specs.Shorts.{items};

pub use line::{Call, Row, ShortRow, Tell};

mod build;
mod calls;
mod drafts;
mod place;
mod read;
mod refusal;
mod view;

pub use refusal::{Cause, Refusal};

// What a goal is, with the goals below it by their indices.
#[derive(Clone, Copy)]
pub enum Form {
    Tell(Tell),
    And { first: u16, second: u16 },
    Or { first: u16, second: u16 },
    New { goal: u16 },
    Call(Call),
}

#[derive(Clone, Copy)]
pub struct Node {
    pub form: Form,
    // How many slots are in scope of the goal.
    pub scope: u8,
    // The line on which the goal is written.
    pub line: u16,
}

#[derive(Clone, Copy)]
pub struct Rule {
    pub params: u8,
    pub goal: u16,
}

// Goals, each behind those below it: a table that is being filled is well formed at every moment. Goals name each other by index, since a
// book lies in fixed memory.
#[derive(Clone, Copy)]
pub(crate) struct Table {
    goals: ShortRow<Node, 1024>,
    ghost well: { nested [] (items goals) ≡ true },
}

// Each rule has its goal, and each call fits the rule that it names.
#[derive(Clone, Copy)]
pub struct Book {
    table: Table,
    rules: ShortRow<Rule, 64>,
    ghost well_rooted: { rooted (items table.goals) (length (items rules) + length (items table.goals) + 1) 1 (items rules) ≡ true },
    ghost well_called: { calls_fit (heads_of (items rules)) (items table.goals) ≡ true },
}
