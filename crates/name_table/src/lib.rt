//! A table of the values of names, and a set of names, each in the order in which names were added. Names are looked up
//! in buckets, and by their order if a bucket is full.
#![tactic(auto)]

mod bucket;
mod index;
mod mix;
mod set;
mod table;

pub use set::NameSet;
pub use table::NameTable;
