//! Why a graph was not printed to its end.

use jdf_lex::JdfRefusal;
use ptg_base::OutOfMemory;
use ptg_io::LoadFault;
use std::alloc::{AllocError, AllocFailed};
use std::io;

/// Why a graph was not printed to its end.
#[derive(Clone, Copy, Debug)]
pub enum Failure {
    /// As many lines as were asked for are printed.
    Full,
    /// The words ask for nothing.
    Usage,
    JdfRefused,
    DataRefused,
    Unread,
    Unwritten,
    OutOfMemory,
}

impl Failure {
    /// The exit status, which is that of the main program for the same reason.
    pub fn code(self) -> u8 {
        match self {
            Failure::Full => 0,
            Failure::Usage => 1,
            Failure::JdfRefused => 2,
            Failure::DataRefused => 3,
            Failure::Unread => 7,
            Failure::Unwritten => 8,
            Failure::OutOfMemory => 9,
        }
    }
}

impl From<io::Error> for Failure {
    fn from(_error: io::Error) -> Failure {
        Failure::Unwritten
    }
}

impl From<AllocError> for Failure {
    fn from(_error: AllocError) -> Failure {
        Failure::OutOfMemory
    }
}

impl<T: Drop> From<AllocFailed<T>> for Failure {
    fn from(_error: AllocFailed<T>) -> Failure {
        Failure::OutOfMemory
    }
}

impl From<OutOfMemory> for Failure {
    fn from(_error: OutOfMemory) -> Failure {
        Failure::OutOfMemory
    }
}

impl From<LoadFault> for Failure {
    fn from(fault: LoadFault) -> Failure {
        match fault {
            LoadFault::OutOfMemory => Failure::OutOfMemory,
            _ => Failure::Unread,
        }
    }
}

impl From<JdfRefusal> for Failure {
    fn from(refusal: JdfRefusal) -> Failure {
        match refusal {
            JdfRefusal::OutOfMemory => Failure::OutOfMemory,
            JdfRefusal::Fault(_) => Failure::JdfRefused,
        }
    }
}
