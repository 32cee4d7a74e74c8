//! Reads a data file, or returns its first record's fault.
#![tactic(auto)]

mod colls;
mod csv_records;
mod field;
mod finish;
mod growing;
mod ints;
mod names;
mod read;
mod record;
mod tiles;
mod types;

pub use read::read_data;
