//! What one worker works with.

use ptg_base::{OutOfMemory, TaskId};
use ready_deques::Hands;
use task_run::Bench;
use worker_core::Worked;

/// A worker's desk: its pass of a board, its ends of the deques, its bench, and the result of its work once there is
/// one. The log has its claims with their stamps; only a traced run keeps it.
#[derive(Drop)]
pub struct Desk<P> {
    pub pass: P,
    pub hands: Hands,
    pub bench: Bench,
    pub answer: Option<Result<Worked, OutOfMemory>>,
    pub log: Vec<(u64, TaskId)>,
}
