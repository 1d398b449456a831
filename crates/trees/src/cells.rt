// What a store is made of.
ghost use Rattle.std.specs.Prelude.{◌≡◌};
ghost use Rattle.bank.specs.declared.Refusal.TheVariants.{Contradiction};
ghost use Rattle.trees.specs.Stores.{lone};

use bank::Refusal;
use records::{Node, Record};

// What is known of a class: nothing, that it is a number, or that it is the pair of two variables.
#[derive(Clone, Copy, PartialEq, Eq)]
pub enum Form {
    Free,
    Number(i32),
    Pair(u16, u16),
}

// What stands at a variable: its class, by the lowest variable there, and at that one the form of the class.
#[derive(Clone, Copy)]
pub struct Cell {
    pub root: u16,
    pub form: Form,
}

impl Node for Cell {
    ghost own = { lone };

    fn alone(node: u16) -> Cell {
        Cell {
            root: node,
            form: Form::Free,
        }
    }
}

// A store: the cells of its variables. That they are well made is a fact of live stores only: a lent slot holds any record.
pub type Store = Record<Cell, 256>;

// Two variables that are still to be joined.
#[derive(Clone, Copy)]
pub struct Equation {
    pub x: u16,
    pub y: u16,
}

// Why work on a store ends early: no solution is left.
#[derive(Clone, Copy)]
pub struct NoSolution;

impl From<NoSolution> for Refusal {
    ghost from_gives = { λ _ r. r ≡ Contradiction };

    fn from(_none: NoSolution) -> Refusal {
        Refusal::Contradiction
    }
}
