//! Why a job is not consistent.

use ptg_base::MOST_LOCALS;
use range_space::Numbers;

/// What is wrong with a job.
#[derive(Clone, Copy, Debug, PartialEq, Eq)]
pub enum MatchCode {
    /// An expression that is needed has no value, or a range has step 0.
    BadExpr,
    /// There are more than 1,000,000 tasks, or more than 16,000,000 prefixes.
    TooManyTasks,
    /// The place of an affinity, of a source or of a write-back does not exist.
    BadPlace,
    /// A READ or RW flow has no in dependence that holds.
    NoInput,
    /// The other task of an edge is not one of the job.
    OutOfSpace,
    /// There are more than 4,000,000 edges into tasks, or more than 4,000,000 edges out of tasks and write-backs.
    TooManyEdges,
    /// A flow whose source is `NULL` sends something.
    NullSent,
    /// A place is written twice.
    DoubleWrite,
    /// An edge into a task is not an edge out of its source.
    NoMatchingOut,
    /// An edge out of a task is not an edge into its target.
    NoMatchingIn,
    /// Two dependences of a flow stand for the same edge.
    DoubleEdge,
}

/// The first fault of a job.
#[derive(Debug, Drop)]
pub struct MatchFault {
    /// What is wrong.
    pub code: MatchCode,
    /// The number of the class.
    pub class: u32,
    /// The parameters of the task. For a definition without a value, the values of the definitions before it. Empty if
    /// there are too many tasks.
    pub numbers: Numbers<MOST_LOCALS>,
    /// The number of the flow, if a flow is at fault.
    pub flow: Option<u8>,
}

/// Why a plan could not be matched.
#[derive(Debug, Drop)]
pub enum MatchRefusal {
    /// The job is not consistent.
    Fault(MatchFault),
    /// Out of memory.
    OutOfMemory,
}
