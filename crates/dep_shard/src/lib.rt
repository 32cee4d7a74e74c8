//! One shard of the dependency table: its entries by task and by index, and the best ready one. Memory for every
//! addition can be reserved.
#![tactic(auto)]

mod arrivals;
mod entry;
mod flow_tiles;
mod hashing;
mod parts;
mod queue;
mod shard;
mod stock;
mod table;
mod tile_list;

pub use arrivals::Arrivals;
pub use entry::Entry;
pub use flow_tiles::FlowTiles;
pub use parts::{Entries, Parts};
pub use shard::{Arrived, Shard};
