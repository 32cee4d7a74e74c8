//! The deques of ready tasks: a worker pushes and pops at the back of its own, and steals at the front of the others'.
//! No id is taken more often than it was pushed.
#![tactic(auto)]

mod ends;
mod hands;
mod history;
mod slot;
mod stolen;
mod tally;
mod team;

pub use hands::Hands;
pub use stolen::Stolen;
pub use team::make;

#[cfg(test)]
mod tests;
