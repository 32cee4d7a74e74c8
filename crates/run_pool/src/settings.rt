//! The settings of a run.

/// The number of workers and of shards of a run, and whether all memory is reserved before it.
#[derive(Clone, Copy, Debug, PartialEq, Eq)]
pub struct Settings {
    /// The number of workers: 1 to 64.
    pub workers: u32,
    /// The number of shards: 1 to 256.
    pub shards: u32,
    /// Whether all memory is reserved before the first task runs.
    pub preload: bool,
}
