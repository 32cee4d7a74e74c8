//! Faults of arithmetic.

/// Why an expression has no value.
#[derive(Clone, Copy, Debug, PartialEq, Eq)]
pub enum ExprFault {
    /// A number that does not fit 64 bits.
    Overflow,
    /// A divisor of 0.
    Divide,
}
