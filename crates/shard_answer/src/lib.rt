//! Makes the answer of a run from its shards, copying no tile. With room for the rows it takes no memory.
#![tactic(auto)]

mod answer;
mod room;
mod rows;

pub use answer::outcome_of;
pub use room::Room;
