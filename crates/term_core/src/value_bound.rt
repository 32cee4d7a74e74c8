//! Bounds of values.

ghost use Rattle.std.specs.Prelude.{◌<◌, ◌^◌};

/// What is known of the value of an expression on small locals. It fits 64 bits.
#[derive(Clone, Copy)]
pub struct ValueBound {
    /// The greatest absolute value that it may have.
    pub most: u64,
    /// Whether it is never 0.
    pub nonzero: bool,
    pub ghost fits: { most < 2 ^ 63 },
}
