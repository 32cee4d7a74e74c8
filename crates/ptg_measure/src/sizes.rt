//! Counts of the tasks of a class by `space_size` alone.
ghost use Rattle.std.specs.Prelude.{◌≤◌, IfOk, length};
ghost use Rattle.ptg_base.specs.Limits.{most_locals};

use crate::count::{Count, Counts, Failure};
use ptg_base::Seq;
use range_space::space_size;
use std::alloc::Global;
use term_core::{BinOp, ClassSpace, Def, Expr, Params, Range};

// A range of this many values, from 0 on.
fn below(count: u32) -> Def {
    Def::Span(Range {
        lo: Expr::num(0),
        hi: Expr::num(i64::from(count) - 1),
        step: None,
    })
}

// `T(a)`: `a = 0 .. count - 1`.
fn line(alloc: Global, count: u32) -> Result<ClassSpace, Failure>
    ensures { IfOk result (λ space. length space.defs ≤ most_locals) }
{
    Ok(ClassSpace {
        defs: Seq::of(vec![in alloc; below(count)]?),
        params: Params::new(&[0]),
    })
}

// `T(a, b)`: `a` and `b` are `0 .. side - 1` each.
fn square(alloc: Global, side: u32) -> Result<ClassSpace, Failure>
    ensures { IfOk result (λ space. length space.defs ≤ most_locals) }
{
    Ok(ClassSpace {
        defs: Seq::of(vec![in alloc; below(side), below(side)]?),
        params: Params::new(&[0, 1]),
    })
}

// The same with a third definition, `c = a + b`.
fn square_with_sum(alloc: Global, side: u32) -> Result<ClassSpace, Failure>
    ensures { IfOk result (λ space. length space.defs ≤ most_locals) }
{
    let sum = Expr::binary(alloc, BinOp::Add, Expr::local(0), Expr::local(1))?;
    Ok(ClassSpace {
        defs: Seq::of(vec![in alloc; below(side), below(side), Def::Value(sum)]?),
        params: Params::new(&[0, 1]),
    })
}

// Counts the tasks of a class.
fn counted(alloc: Global, class: ClassSpace) -> Result<Counts, Failure>
    requires { length class.defs ≤ most_locals }
{
    let classes = vec![in alloc; class]?;
    let count = space_size(classes.as_slice()).map_err(|_| Failure::TooLarge)?;
    Ok(Counts::one(Count::of("counted", count)))
}

/// Counts the tasks of a class with one range of this many values.
pub fn size_of_line(alloc: Global, count: u32) -> Result<Counts, Failure> {
    counted(alloc, line(alloc, count)?)
}

/// Counts the tasks of a class with two nested ranges of this many values each.
pub fn size_of_square(alloc: Global, side: u32) -> Result<Counts, Failure> {
    counted(alloc, square(alloc, side)?)
}

/// The same for a class with a third definition, the sum of the two.
pub fn size_with_sum(alloc: Global, side: u32) -> Result<Counts, Failure> {
    counted(alloc, square_with_sum(alloc, side)?)
}
