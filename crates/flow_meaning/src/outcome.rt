//! The answer of a job.

use coll_data::Given;
use ptg_base::{Seq, TaskId};
use term_core::Trap;

/// A task that trapped, and why.
#[derive(Drop)]
pub struct TrapRow {
    pub task: TaskId,
    pub cause: Trap,
}

/// A task that waits: how many of the edges into it have arrived, and how many there are.
#[derive(Drop)]
pub struct WaitRow {
    pub task: TaskId,
    pub arrived: u32,
    pub goal: u32,
}

/// The answer of a job.
#[derive(Drop)]
pub enum Outcome {
    /// All tasks ran: their number, and the data after their write-backs.
    Complete(u64, Given),
    /// Some task trapped: all tasks that did, in task order.
    Trapped(Seq<TrapRow>),
    /// Some task could not run: how many ran, how many there are, and those that wait, in task order.
    Stalled(u64, u64, Seq<WaitRow>),
}
