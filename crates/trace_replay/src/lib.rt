//! Replays a trace, on one thread in a world of one rank. Returns its first fault, or the answer of the job.
#![tactic(auto)]

mod judging;
mod running;

pub use judging::{judge_trace, replay};
