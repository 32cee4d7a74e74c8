//! What a table and a world of ranks both do with their shards. They find the shard of a task, open the shards, take in
//! edges and write-backs, find a flow by its number, and see whether work is left.
#![tactic(auto)]

mod arriving;
mod flows;
mod items;
mod opening;
mod placing;
mod quiet;

pub use flows::flow_at;
pub use items::{take_edge, take_write};
pub use opening::{opened_ranks, opened_shards};
pub use placing::{home_at, home_of, shard_at};
pub use quiet::have_no_work;
