//! Faults of ranges and spaces.

use crate::numbers::Numbers;
use ptg_base::MOST_LOCALS;
use term_core::ExprFault;

/// Why a range has no values.
#[derive(Clone, Copy, Debug, PartialEq, Eq)]
pub enum SpanFault {
    /// One of its expressions has no value.
    Expr(ExprFault),
    /// Its step is 0.
    ZeroStep,
}

/// Why the tasks of the classes could not be counted. The number is that of the class.
#[derive(Debug, Drop)]
pub enum SpaceFault {
    /// A definition has no value under these values of the definitions before it.
    BadExpr(u32, Numbers<MOST_LOCALS>),
    /// There are more than 1,000,000 tasks, or more than 16,000,000 prefixes.
    TooManyTasks(u32),
}
