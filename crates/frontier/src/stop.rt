// Why a step was not made.
use bank::Refusal;

#[derive(Clone, Copy, Debug, PartialEq, Eq)]
pub enum Stop {
    // There are too few boxes.
    Nodes,
    // All variables are in use.
    Variables,
    Stores(Refusal),
}
