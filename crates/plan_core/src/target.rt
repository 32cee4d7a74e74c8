//! Targets of dependences.

use ptg_base::Seq;
use term_core::{Expr, Range};

/// An argument of a task target.
pub enum Arg {
    /// The value of a parameter.
    One(Expr),
    /// Every value of a range; each makes an edge of its own.
    Span(Range),
}

impl Drop for Arg {
    fn drop(self) {
        match self {
            Arg::One(_value) => {}
            Arg::Span(_range) => {}
        }
    }
}

/// The other end of a dependence.
pub enum Target {
    /// The number of a class, the number of one of its flows, and an argument for each parameter of the class.
    Task(u32, u8, Seq<Arg>),
    /// The number of a collection, and an index for each of its dimensions.
    Element(u32, Seq<Expr>),
    /// A new tile of zeros.
    New,
    /// No tile.
    Null,
}

impl Drop for Target {
    fn drop(self) {
        match self {
            Target::Task(_, _, _args) => {}
            Target::Element(_, _indices) => {}
            Target::New | Target::Null => {}
        }
    }
}
