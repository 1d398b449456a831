// What every bank over lent records shares: the slots of its stores, the numbers of the idle ones, and the calls that are the same in each.
#![tactic(auto)]

mod cells;
mod nodes;
mod sense;
mod shelf;
mod slots;
mod stored;
mod vacancies;

pub use cells::Record;
pub use nodes::Node;
pub use sense::Sense;
pub use shelf::{fork, open, place, print, release, vacancy};
pub use slots::{Slot, copy, first_idle, idle_all, is_live};
pub use stored::Stored;
pub use vacancies::{Vacancies, numbered};
