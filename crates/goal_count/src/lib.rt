//! Counts the edges into a task by arithmetic over the ranges; no edge is walked.
#![tactic(auto)]

mod count;

pub use count::{combination_count, goal, goal_of};
