//! Why a call was refused.

ghost use Rattle.std.specs.Prelude.{◌≡◌};
ghost use Rattle.ptg_base.specs.declared.refusal.Refusal.TheVariants.{OutOfMemory};

use crate::memory;
use std::alloc::{AllocError, AllocFailed};

/// Why a call was refused: a fault of its input, or out of memory.
#[derive(Clone, Copy, Debug, PartialEq, Eq)]
pub enum Refusal<F> {
    /// The input has this fault.
    Fault(F),
    /// Memory ran out.
    OutOfMemory,
}

impl<F> From<memory::OutOfMemory> for Refusal<F> {
    ghost from_gives = { λ _ refusal. refusal ≡ OutOfMemory };

    fn from(_e: memory::OutOfMemory) -> Refusal<F> {
        Refusal::OutOfMemory
    }
}

impl<F> From<AllocError> for Refusal<F> {
    ghost from_gives = { λ _ refusal. refusal ≡ OutOfMemory };

    fn from(_e: AllocError) -> Refusal<F> {
        Refusal::OutOfMemory
    }
}

impl<F, T: Drop> From<AllocFailed<T>> for Refusal<F> {
    ghost from_gives = { λ _ refusal. refusal ≡ OutOfMemory };

    fn from(_e: AllocFailed<T>) -> Refusal<F> {
        Refusal::OutOfMemory
    }
}
