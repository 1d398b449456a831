// A search for the answers of a rule, over any bank of stores. It interleaves: every answer that there is comes after so many steps.
#![tactic(auto)]

pub use answer_line::Overlong;
use bank::Bank;
use book::Book;
pub use frontier::Found;
use frontier::Tree;
use std::marker::Model;

mod calls;
mod promise;
mod refusal;
mod run;

pub use promise::common_steps;
pub use refusal::{Halt, Refusal};

// A search owns its bank, and holds a store for each leaf of its tree and one for the answer that waits.
#[derive(Drop)]
pub struct Search<B: Bank> {
    bank: B,
    // The book that was posed, and how many parameters the posed rule has.
    book: Book,
    params: u8,
    // None where nothing is left to search.
    tree: Option<Tree>,
    // The boxes that the tree does not use, so that no step wants memory.
    pool: Vec<Box<Tree>>,
    waiting: Option<Found>,
    // A flag, as an `Option` of the two would be no plainer: contracts name the book and the parameters of every search.
    posed: bool,
    // Since the pose.
    steps: u32,
    // How many stores the search may hold.
    stock: u16,
}

// What holds of every search is its invariant, so that no call asks for it.
impl<B: Bank> Model for Search<B> {
    ghost use Rattle.std.specs.Coded.{codes};
    ghost use Rattle.frontier.specs.contracts.tree.Tree as tree_row;
    ghost use Rattle.std.specs.Prelude.{is_none};
    ghost use Rattle.search.specs.Parts.{Parts, tree_of};

    ghost Value = { Parts B };

    ghost coded = { Prim.hlevel (codes, tree_row.the_row.coded) };

    ghost use Rattle.search.specs.Calls.{Good};

    ghost view = { λ s. record { bank = s.bank; book = s.book; params = s.params; tree = tree_of s.tree; pool = s.pool; waiting = s.waiting; posed = s.posed; over = is_none s.tree; steps = s.steps; stock = s.stock } };

    ghost invariant = { λ s. Good B.view (view s) };
}

// There is no memory for a search: the bank comes back.
#[derive(Drop)]
pub struct NoMemory<B> {
    pub bank: B,
}

// Why a run stopped.
#[derive(Clone, Copy, Debug, PartialEq, Eq)]
pub enum Outcome {
    // It waits until it is taken.
    Answer(Found),
    // Nothing is left.
    Exhausted,
    // All steps of the run were made, and something is left.
    Spent,
}

// The steps that a run made, and all steps since the pose.
#[derive(Clone, Copy, Debug, PartialEq, Eq)]
pub struct Ran {
    pub outcome: Outcome,
    pub steps: u32,
    pub total: u32,
}
