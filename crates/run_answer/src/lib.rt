//! The data after their write-backs, and the rows of an answer in task order, without memory.
#![tactic(auto)]

mod rows;
mod written;

pub use rows::{traps_in_task_order, waits_in_task_order};
pub use written::with_written;
