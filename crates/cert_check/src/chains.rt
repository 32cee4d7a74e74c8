//! Checks, without memory, whether tasks are a chain.

ghost use Rattle.std.specs.Prelude.{◌↔◌, IsTrue};
ghost use Rattle.dep_iter.specs.Tasks.{IsTask};
ghost use Rattle.chain_cert.specs.Chains.{IsChain, IsSourceOf};
ghost use Rattle.cert_check.specs.Checking.{IsLinked};

use crate::sources::has_source;
use dep_iter::{TaskAt, is_task};
use plan_core::Plan;
use ptg_base::TaskId;
use range_space::Numbers;

// Whether t is a task of the job, and s the source of an edge into it.
pub(crate) fn is_link(plan: &Plan, s: &TaskId, t: &TaskId) -> bool
    ensures { IsTrue result ↔ (IsTask plan.now t.now × IsSourceOf plan.now s.now t.now) }
{
    let mut room = Numbers::new();
    match TaskAt::find(plan, t, &mut room) {
        Some(at) => has_source(&at, s),
        None => false,
    }
}

// Whether the first of these tasks is one of the job. If there is a second one, it must be one of the job too, with an
// edge from the first.
fn is_linked(plan: &Plan, tasks: &[TaskId]) -> bool
    ensures { IsTrue result ↔ IsLinked plan.now tasks.now }
{
    let Some((first, later)) = tasks.split_first() else {
        return true;
    };
    if !is_task(plan, first) {
        return false;
    }
    let Some((second, _)) = later.split_first() else {
        return true;
    };
    is_link(plan, first, second)
}

// Whether these tasks are a chain.
pub(crate) fn is_chain(plan: &Plan, tasks: &[TaskId]) -> bool
    ensures { IsTrue result ↔ IsChain plan.now tasks.now }
{
    for at in 0..tasks.len() {
        if !is_linked(plan, &tasks[at..]) {
            return false;
        }
    }
    true
}
