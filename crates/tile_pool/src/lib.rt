//! Reserved tiles, taken and given back without memory.
#![tactic(auto)]

mod pool;

pub use pool::TilePool;
