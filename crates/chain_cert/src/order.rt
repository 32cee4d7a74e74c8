//! A greatest legal order.

ghost use Rattle.std.specs.Prelude.{IfOk};
ghost use Rattle.chain_cert.specs.Greatest.{IsGreatestOrder};

use crate::order_builder::{pass, start};
use dep_iter::Matched;
use ptg_base::{OutOfMemory, Seq, TaskId};
use std::alloc::Global;

/// A greatest legal order of the tasks of a job: each task comes after all sources of the edges into it, and no other
/// task may follow.
pub fn order_of(alloc: Global, m: &Matched) -> Result<Seq<TaskId>, OutOfMemory>
    ensures { IfOk result (λ order. IsGreatestOrder m.now order) }
{
    m.plan_is_consistent();
    let mut builder = start(alloc, m)?;
    let mut at: usize = 0;
    while at < builder.order.len() {
        let t = builder.order[at].copy();
        pass(&mut builder, m, &t)?;
        at += 1;
    }
    Ok(Seq::of(builder.order))
}
