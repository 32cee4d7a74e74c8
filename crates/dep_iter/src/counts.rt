//! The counts of a job.

/// How many tasks and edges a job has.
#[derive(Clone, Copy)]
pub struct Counts {
    /// How many tasks it has.
    pub tasks: u64,
    /// How many of its tasks have no edge into them.
    pub roots: u64,
    /// How many edges it has, including those of CTL flows.
    pub edges: u64,
    /// How many of its edges carry a tile.
    pub data_edges: u64,
    /// How many write-backs it has.
    pub writes: u64,
}
