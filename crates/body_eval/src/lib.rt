//! Runs a task's body on its tiles, within a budget.
#![tactic(auto)]

mod element;
mod run;
mod scratch;

pub use run::run_body;
pub use scratch::Scratch;
