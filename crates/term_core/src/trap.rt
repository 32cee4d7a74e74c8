//! Why a body traps.

ghost use Rattle.std.specs.Prelude.{◌≡◌};
ghost use Rattle.term_core.specs.Trap.{trap_of};

use crate::fault::ExprFault;

/// Why a body traps.
#[derive(Clone, Copy, Debug, PartialEq, Eq)]
pub enum Trap {
    /// A number that does not fit 64 bits.
    Overflow,
    /// A divisor of 0.
    Divide,
    /// An index outside of its tile.
    Index,
    /// An element of a flow that has no tile.
    Absent,
    /// More statements and turns of loops than a task may run.
    Budget,
    /// A `trap` statement, with the number of its word.
    Word(u32),
}

impl From<ExprFault> for Trap {
    ghost from_gives = { λ fault trap. trap ≡ trap_of fault };

    fn from(fault: ExprFault) -> Trap {
        match fault {
            ExprFault::Overflow => Trap::Overflow,
            ExprFault::Divide => Trap::Divide,
        }
    }
}
