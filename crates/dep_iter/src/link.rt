//! Links: the edges of a task without the task itself.

use ptg_base::TaskId;

/// An edge of a task as seen from the task: the flow of the task, and the flow of the task at the other end.
#[derive(Drop)]
pub struct Link {
    /// The number of the flow of the task whose edge it is.
    pub near: u8,
    /// The task at the other end.
    pub far: TaskId,
    /// The number of the flow of that task.
    pub far_flow: u8,
}
