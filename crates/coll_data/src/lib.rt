//! The data of a job: tile types, integers and collections of tiles, within their limits; and the sum of all elements.
#![tactic(auto)]

mod coll;
mod fault;
mod given;
mod index;
mod sums;
mod types;

pub use coll::Coll;
pub use fault::{DataCode, DataFault, DataRefusal};
pub use given::Given;
pub use index::{tile_count, tile_index};
pub use types::DEFAULT_TYPE;
