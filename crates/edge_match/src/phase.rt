//! The phases of the pass over all tasks.

/// The phase in which a task is checked.
#[derive(Clone, Copy, Debug, PartialEq, Eq)]
pub enum Phase {
    /// Whether what the task needs and names exists.
    Connecting,
    /// Whether its edges match those at their other ends.
    Matching,
}
