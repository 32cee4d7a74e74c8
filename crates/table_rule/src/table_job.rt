//! The job of a table.

use coll_data::Given;
use dep_iter::Matched;

/// The job that a table runs, and how the table runs it. None of it ever changes.
#[derive(Drop)]
pub struct TableJob {
    /// The plan, which is consistent.
    pub matched: Matched,
    /// The data.
    pub given: Given,
    /// The number of shards.
    pub shards: u32,
    /// Whether all memory is reserved before the first step.
    pub preloaded: bool,
}
