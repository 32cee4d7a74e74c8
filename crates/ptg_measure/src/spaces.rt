//! Walks over iteration spaces, and counts of their tasks.
ghost use Rattle.std.specs.Prelude.{◌≡◌, ◌≤◌, IfOk, IfSome, length};
ghost use Rattle.ptg_base.specs.Limits.{most_locals};
ghost use Rattle.range_space.specs.Tasks.{tasks};

use crate::count::{Count, Counts, Failure};
use ptg_base::Seq;
use range_space::{Space, space_size};
use std::alloc::Global;
use term_core::{ClassSpace, Def, Expr, Params, Range};

// The space of a class with one parameter and this many tasks, `T(k)`: `k = 1 .. size`.
fn line(alloc: Global, size: u32) -> Result<ClassSpace, Failure>
    ensures { IfOk result (λ space. length space.defs ≤ most_locals) }
{
    let range = Range {
        lo: Expr::num(1),
        hi: Expr::num(i64::from(size)),
        step: None,
    };
    Ok(ClassSpace {
        defs: Seq::of(vec![in alloc; Def::Span(range)]?),
        params: Params::new(&[0]),
    })
}

// The number of tasks in a walk over a class; None if it is over the largest number.
fn walked(space: &ClassSpace) -> Option<u64>
    requires { length space.now.defs ≤ most_locals }
    ensures { IfSome result (λ n. n ≡ length (tasks space.now)) }
{
    let mut count: u64 = 0;
    for _task in Space::new(space) {
        count = count.checked_add(1)?;
    }
    Some(count)
}

/// Walks over a class of this many tasks. Counts the tasks of the walk, and those by `space_size`.
pub fn space(alloc: Global, size: u32) -> Result<Counts, Failure> {
    let classes = vec![in alloc; line(alloc, size)?]?;
    let walked = walked(&classes[0]).ok_or(Failure::TooLarge)?;
    let counted = space_size(classes.as_slice()).map_err(|_| Failure::TooLarge)?;
    Ok(Counts::two(Count::of("walked", walked), Count::of("counted", counted)))
}
