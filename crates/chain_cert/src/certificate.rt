//! Certificates.

use ptg_base::{Seq, TaskId};

/// A certificate of a job.
#[derive(Drop)]
pub enum Certificate {
    /// The job has no cycle: a heaviest chain, and all tasks with their levels, in task order.
    Chain(Seq<TaskId>, Seq<(TaskId, u64)>),
    /// The job has this cycle.
    Cycle(Seq<TaskId>),
    /// Some task trapped.
    Trapped,
}
