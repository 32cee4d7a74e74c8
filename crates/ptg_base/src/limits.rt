//! The limits that several crates speak of.

/// How many bytes the text of a JDF, of data or of a trace may have.
pub const MOST_BYTES: usize = 16_777_216;

/// How many tasks a job may have.
pub const MOST_TASKS: u64 = 1_000_000;

/// How many in edges the tasks of a job may have in all, and how many out edges and write-backs together.
pub const MOST_EDGES: u64 = 4_000_000;

/// How many parameters a class may have.
pub const MOST_PARAMS: usize = 8;

/// How many definitions a class may have; each defines one local of a task.
pub const MOST_LOCALS: usize = 16;

/// How many flows a class may have.
pub const MOST_FLOWS: usize = 8;

/// How many variables a body may declare.
pub const MOST_VARIABLES: usize = 256;

/// How many workers a run may have.
pub const MOST_WORKERS: u32 = 64;

/// How many shards the table of a run may have.
pub const MOST_SHARDS: u32 = 256;

/// How many ranks a world may have.
pub const MOST_RANKS: u32 = 64;

/// How many workers a run has by default.
pub const USUAL_WORKERS: u32 = 4;

/// How many shards the table of a run has by default.
pub const USUAL_SHARDS: u32 = 16;

/// How many rows of tiles a made job may have.
pub const MOST_ROWS: u32 = 96;

/// The greatest number that a JDF and its data may have: 2^63 - 1.
pub const MOST_NUMBER: u64 = 9223372036854775807;
