//! Runs one task on a `Bench`, without memory: the tiles that it starts on, its body, and the tiles that it leaves.
#![tactic(auto)]

mod bench;
mod pools;
mod start;
mod starting;

pub use bench::Bench;
pub use start::Start;
