//! Why something was not read.

use ptg_base::OutOfMemory;
use std::alloc::{AllocError, AllocFailed};

/// Why something was not read, in a few words.
#[derive(Clone, Copy, Debug)]
pub struct Why(pub &'static str);

// Why something that needs memory was not done.
const NO_MEMORY: &str = "there is no memory for it";

impl From<AllocError> for Why {
    fn from(_error: AllocError) -> Why {
        Why(NO_MEMORY)
    }
}

impl<T: Drop> From<AllocFailed<T>> for Why {
    fn from(_error: AllocFailed<T>) -> Why {
        Why(NO_MEMORY)
    }
}

impl From<OutOfMemory> for Why {
    fn from(_error: OutOfMemory) -> Why {
        Why(NO_MEMORY)
    }
}
