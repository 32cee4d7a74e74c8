//! Ties: an active dependence of a task with one of the things that it names.

use ptg_base::{Place, TaskId};

/// What a dependence names.
#[derive(Drop)]
pub enum Far {
    /// A flow of a task, by its number.
    Flow(TaskId, u8),
    /// An element of a collection.
    Place(Place),
    /// A tile of zeros.
    New,
    /// No tile.
    Null,
}

/// An active dependence of a task with one of the things that it names. A dependence that names many tasks has many
/// ties.
#[derive(Drop)]
pub struct Tie {
    /// The number of the task's flow, from 0.
    pub flow: u8,
    /// The number of the dependence among the flow's in dependences, or among its out dependences, from 0 in the
    /// text's order.
    pub dependence: usize,
    /// What the dependence names.
    pub far: Far,
}
