//! The result of a steal.

use ptg_base::TaskId;

/// What a steal returns.
#[derive(Drop)]
pub enum Stolen {
    /// The id that was at the front.
    Task(TaskId),
    /// There was nothing to steal, or only an id that its worker may have been popping.
    Empty,
}
