//! What a measured case counts, and why one fails.
use coll_data::DataRefusal;
use jdf_lex::JdfRefusal;
use ptg_base::OutOfMemory;
use std::alloc::{AllocError, AllocFailed};
use std::fmt;
use term_core::Trap;

/// A number with the name of what was counted.
#[derive(Clone, Copy)]
pub struct Count {
    pub name: &'static str,
    pub value: i64,
}

impl Count {
    /// A count of this number, or of the largest one if it does not fit.
    pub fn of(name: &'static str, number: u64) -> Count {
        Count {
            name,
            value: i64::try_from(number).unwrap_or(i64::MAX),
        }
    }
}

impl fmt::Display for Count {
    fn fmt<W: fmt::Write>(&self, f: &mut fmt::Formatter<W>) -> fmt::Result {
        write!(f, "{},{}", self.name, self.value)
    }
}

/// What a case counts: at most four numbers, in order.
#[derive(Clone, Copy)]
pub struct Counts([Option<Count>; 4]);

impl Counts {
    /// One number.
    pub fn one(a: Count) -> Counts {
        Counts([Some(a), None, None, None])
    }

    /// Two numbers.
    pub fn two(a: Count, b: Count) -> Counts {
        Counts([Some(a), Some(b), None, None])
    }

    /// Three numbers.
    pub fn three(a: Count, b: Count, c: Count) -> Counts {
        Counts([Some(a), Some(b), Some(c), None])
    }

    /// Four numbers.
    pub fn four(a: Count, b: Count, c: Count, d: Count) -> Counts {
        Counts([Some(a), Some(b), Some(c), Some(d)])
    }

    /// The numbers in order, and then None for each missing one.
    pub fn each(&self) -> &[Option<Count>] {
        &self.0
    }
}

/// Why a case failed.
#[derive(Debug, Drop)]
pub enum Failure {
    OutOfMemory,
    /// The text or the space of this size is over a limit.
    TooLarge,
    /// The space, the body or the job that was made is not as it should be, whatever the size.
    NotWellMade,
    /// The text that was made is refused.
    Refused(JdfRefusal),
    /// The data file that was made is refused.
    RefusedData(DataRefusal),
    /// The body that was made trapped.
    Trapped(Trap),
}

impl From<AllocError> for Failure {
    fn from(_error: AllocError) -> Self {
        Failure::OutOfMemory
    }
}

impl<T: Drop> From<AllocFailed<T>> for Failure {
    fn from(_error: AllocFailed<T>) -> Self {
        Failure::OutOfMemory
    }
}

impl From<OutOfMemory> for Failure {
    fn from(_error: OutOfMemory) -> Self {
        Failure::OutOfMemory
    }
}

impl From<JdfRefusal> for Failure {
    fn from(refusal: JdfRefusal) -> Self {
        Failure::Refused(refusal)
    }
}

impl From<DataRefusal> for Failure {
    fn from(refusal: DataRefusal) -> Self {
        Failure::RefusedData(refusal)
    }
}
