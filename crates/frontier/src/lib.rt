// The frontier of what is still to be solved, over any bank: the tree of goals, and one step of it.
#![tactic(auto)]

mod frame;
mod steps;
mod stop;
mod tree;

pub use frame::{Frame, first};
pub use steps::step;
pub use stop::Stop;
pub use tree::{Found, Stepped, Task, Tree, boxes_made, clear, let_go, next_goal};
