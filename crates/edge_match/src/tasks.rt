//! Checks of all tasks.

ghost use Rattle.std.specs.Prelude.{◌∷◌, []};
ghost use Rattle.edge_match.specs.Counted.{Checked};
ghost use Rattle.edge_match.specs.Marks.{HasValues, Is, ill_flow, mark, phase_marks, task_marks, task_start};
ghost use Rattle.edge_match.specs.declared.counted.Counted.{Counted as CountedValue};

use crate::counted::Counted;
use crate::fault::{MatchCode, MatchFault};
use crate::flows::check_flows;
use crate::phase::Phase;
use crate::refusing::{fault_at, require};
use dep_iter::{TaskAt, all_tasks, all_tasks_are_listed};
use plan_core::Plan;
use range_space::Numbers;

// Checks that each expression that the task needs has a value.
fn check_values(task: &TaskAt) -> Result<(), MatchFault>
    ensures { (s : CountedValue) → Checked task.now.plan.now s s result
        (mark task.now.task.now (ill_flow task.now.plan.now task.now.task.now)
        (Is (HasValues task.now.task.now)) ∷ []) }
{
    match task.well() {
        Ok(()) => Ok(()),
        Err(ill) => Err(fault_at(MatchCode::BadExpr, task.task, ill.flow)),
    }
}

// Checks in the first phase that each expression that the task needs has a value, and that the place of its affinity
// exists.
fn start_task(phase: Phase, task: &TaskAt) -> Result<(), MatchFault>
    ensures { (s : CountedValue) → Checked task.now.plan.now s s result
        (task_start phase task.now.plan.now task.now.task.now) }
{
    match phase {
        Phase::Connecting => {
            check_values(task)?;
            let place = task.affinity();
            let exists = task.plan.has_place(&place);
            require(exists, MatchCode::BadPlace, task.task, None)
        }
        Phase::Matching => Ok(()),
    }
}

// Checks the task and its flows.
fn check_task(phase: Phase, task: &TaskAt, counted: &mut Counted) -> Result<(), MatchFault>
    ensures { Checked task.now.plan.now counted.old counted.new result
        (task_marks phase task.now.plan.now task.now.task.now) }
{
    start_task(phase, task)?;
    check_flows(phase, task, 0, counted)
}

// Checks all tasks, in walk order.
pub(crate) fn check_all(phase: Phase, plan: &Plan, counted: &mut Counted) -> Result<(), MatchFault>
    ensures { Checked plan.now counted.old counted.new result (phase_marks phase plan.now) }
{
    all_tasks_are_listed();
    for t in all_tasks(plan) {
        let mut room = Numbers::new();
        let task = TaskAt::of(plan, &t, &mut room);
        check_task(phase, &task, counted)?;
    }
    Ok(())
}
