//! What a board returns to a worker.

use dep_shard::Arrivals;
use ptg_base::TaskId;

/// The result of a claim of a task.
#[derive(Drop)]
pub enum Claim {
    /// The task is claimed, and these tiles came to it.
    Got(Arrivals),
    /// The task has no ready entry: another worker may have claimed it.
    Gone,
    /// Another pass holds the turn of the task's shard.
    Busy,
}

/// The result of a scan of a shard.
#[derive(Drop)]
pub enum Scan {
    /// This task is claimed, and these tiles came to it.
    Got(TaskId, Arrivals),
    /// No task of the shard is ready.
    Empty,
    /// Another pass holds the turn of the shard.
    Busy,
}

/// The result of a send of an item.
#[derive(Clone, Copy, Debug, PartialEq, Eq)]
pub enum Sent {
    /// The edge was sent, and its target still waits for other edges.
    Waits,
    /// The edge was sent, and was the last that its target waited for.
    Fired,
    /// The write-back was sent.
    Kept,
    /// Another pass holds the turn of the item's shard, and nothing was sent.
    Busy,
}
