//! What the active dependences of a task name, one after another, each with the number of its dependence. For graphs
//! that are shown; no part of the program.
#![tactic(auto)]

mod laws;
mod position;
mod single;
mod target_ties;
mod tie;
mod ties;

pub use laws::ties_are_edges;
pub use tie::{Far, Tie};
pub use ties::{Ties, ties_of};
