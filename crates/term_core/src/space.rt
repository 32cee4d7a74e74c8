//! Ranges, definitions and the space of a class.

ghost use Rattle.std.specs.Prelude.{◌≡◌, ◌≤◌, length};
ghost use Rattle.ptg_base.specs.Limits.{most_params};

use crate::expr::Expr;
use arrayvec::ArrayVec;
use ptg_base::{MOST_PARAMS, Seq};
use std::marker::Model;

/// The numbers from `lo` to `hi` by `step`, or by 1 if no step is written.
pub struct Range {
    pub lo: Expr,
    pub hi: Expr,
    pub step: Option<Expr>,
}

impl Drop for Range {
    fn drop(self) {
        let Range {
            lo: _lo,
            hi: _hi,
            step: _step,
        } = self;
    }
}

/// The definition of a local of a class.
pub enum Def {
    /// Each value of a range.
    Span(Range),
    /// The value of an expression alone.
    Value(Expr),
}

impl Drop for Def {
    fn drop(self) {
        match self {
            Def::Span(_range) => {}
            Def::Value(_value) => {}
        }
    }
}

/// For each parameter, in order, the number of its definition; at most eight. It takes no memory.
#[derive(Drop)]
pub struct Params {
    numbers: ArrayVec<u8, MOST_PARAMS>,
}

impl Model for Params {
    ghost use Rattle.std.specs.Prelude.{List, ℕ};

    ghost Value = { List ℕ };

    ghost view = { λ p. p.numbers.items };
}

impl Params {
    /// The parameters with these definitions.
    pub fn new(definitions: &[u8]) -> Params
        requires { length definitions.now ≤ most_params }
        ensures { result ≡ definitions.now }
    {
        let mut numbers = ArrayVec::new();
        let _fits = numbers.try_extend_from_slice(definitions);
        Params { numbers }
    }

    /// The numbers of the definitions.
    pub fn as_slice(&self) -> &[u8]
        ensures within { length result.now ≤ most_params }
        ensures same { result.now ≡ self.now }
    {
        self.numbers.as_slice()
    }
}

/// The definitions of a class in the order of their nesting, and which of them are its parameters.
pub struct ClassSpace {
    pub defs: Seq<Def>,
    pub params: Params,
}

impl Drop for ClassSpace {
    fn drop(self) {
        let ClassSpace {
            defs: _defs,
            params: _params,
        } = self;
    }
}
