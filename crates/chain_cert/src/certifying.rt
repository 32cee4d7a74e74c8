//! Makes the certificate of a job.

ghost use Rattle.std.specs.Prelude.{◌≡◌, ℕ, List, IfOk, length};
ghost use Rattle.ptg_base.specs.Task.{Task};
ghost use Rattle.ptg_base.specs.TaskOrder.{in_task_order};
ghost use Rattle.coll_data.specs.Data.{Data};
ghost use Rattle.dep_iter.specs.Tasks.{all_tasks};
ghost use Rattle.flow_meaning.specs.Answer.{answer};
ghost use Rattle.flow_meaning.specs.Order.{IsLegalOrder};
ghost use Rattle.run_answer.specs.Rows.{AreOfDifferentTasks};
ghost use Rattle.chain_cert.specs.Certificates.{AreLevels, IsCertificate};
ghost use Rattle.chain_cert.specs.Checking.{AreWeights};
ghost use Rattle.chain_cert.specs.Finding.{HasLevels, IsAccepted, is_trapped};
ghost use Rattle.chain_cert.specs.Printed.{IsPrintedChain};

use crate::certificate::Certificate;
use crate::leveling::{levels_along, rows_by};
use crate::longest::printed_chain;
use crate::order::order_of;
use crate::walking::printed_cycle;
use dep_iter::Matched;
use flow_meaning::Outcome;
use indexmap::IndexMap;
use ptg_base::{OutOfMemory, Seq, TaskId};
use std::alloc::Global;

// Whether an answer is that a task trapped.
fn has_trap(outcome: &Outcome) -> bool
    ensures { result ≡ is_trapped outcome.now }
{
    match outcome {
        Outcome::Trapped(_) => true,
        Outcome::Complete(_, _) => false,
        Outcome::Stalled(_, _, _) => false,
    }
}

// Different tasks, put in task order. It takes no memory.
fn sorted(tasks: Vec<TaskId>) -> Vec<TaskId>
    requires { AreOfDifferentTasks (λ (t : Task). t) tasks.items }
    ensures { result.items ≡ in_task_order (λ (t : Task). t) tasks.items }
{
    let mut tasks = tasks;
    tasks.sort_unstable_by(|a, b| a.cmp(b));
    tasks
}

// All tasks with their levels, in task order, from a legal order of all tasks and a table with its levels.
fn all_levels(
    alloc: Global,
    table: &IndexMap<TaskId, u64>,
    m: &Matched,
    order: Vec<TaskId>,
) -> Result<Vec<(TaskId, u64)>, OutOfMemory>
    requires legal { IsLegalOrder m.now order.items }
    requires all { length order.items ≡ length (all_tasks m.now) }
    ensures { IfOk result (λ rows.
        (ws : List ℕ) → HasLevels m.now ws order.items table.now.entries → AreLevels m.now ws rows.items) }
{
    m.plan_is_consistent();
    rows_by(alloc, table, sorted(order).as_slice())
}

// The printed chain, and all tasks with their levels, from a legal order of all tasks and a table with its levels.
fn chain_and_levels(
    alloc: Global,
    table: &IndexMap<TaskId, u64>,
    m: &Matched,
    weights: &[u64],
    order: Vec<TaskId>,
) -> Result<(Seq<TaskId>, Seq<(TaskId, u64)>), OutOfMemory>
    requires legal { IsLegalOrder m.now order.items }
    requires all { length order.items ≡ length (all_tasks m.now) }
    requires levels { HasLevels m.now weights.now order.items table.now.entries }
    ensures { IfOk result (λ (chain, levels).
        IsPrintedChain m.now weights.now chain × AreLevels m.now weights.now levels) }
{
    m.plan_is_consistent();
    let rows = all_levels(alloc, table, m, order)?;
    let chain = printed_chain(alloc, table, m, weights, rows.as_slice())?;
    Ok((chain, Seq::of(rows)))
}

/// Makes the certificate of a job with this answer and these weights of its classes. If no task trapped, it is the
/// printed chain with the levels of all tasks, or the printed cycle. Of the answer, only whether a task trapped is
/// used; no data are needed.
pub fn certify(
    alloc: Global,
    m: &Matched,
    outcome: &Outcome,
    weights: &[u64],
) -> Result<Certificate, OutOfMemory>
    requires { AreWeights weights.now }
    ensures certificate { IfOk result (λ c.
        (G : Data) → outcome.now ≡ answer m.now G → IsCertificate m.now G weights.now c) }
    ensures accepted { IfOk result (IsAccepted m.now weights.now) }
{
    m.plan_is_consistent();
    if has_trap(outcome) {
        return Ok(Certificate::Trapped);
    }
    let order = order_of(alloc, m)?;
    let table = levels_along(alloc, m, weights, order.as_slice())?;
    if (order.len() as u64) < m.tasks() {
        let cycle = printed_cycle(alloc, &table, m)?;
        return Ok(Certificate::Cycle(cycle));
    }
    let (chain, levels) = chain_and_levels(alloc, &table, m, weights, order.into_vec())?;
    Ok(Certificate::Chain(chain, levels))
}
