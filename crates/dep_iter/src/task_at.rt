//! Tasks with their locals.

ghost use Rattle.std.specs.Prelude.{◌≡◌, ◌<◌, ◌≤◌, ◌&&◌, IfNone, IfSome, IsTrue, MatchOption, Some, length, slice_get};
ghost use Rattle.ptg_base.specs.Limits.{most_flows};
ghost use Rattle.dep_iter.specs.Tasks as tasks;
ghost use Rattle.dep_iter.specs.Tasks.{IsTask};
ghost use Rattle.dep_iter.specs.Links.{dependences_fit, flows_fit};
ghost use Rattle.dep_iter.specs.OneTask.{IsTask-prop};

use crate::task::{fill_locals, find_locals, flows_of, has_own_locals, is_task};
use plan_core::{FlowPlan, Plan};
use ptg_base::{MOST_LOCALS, TaskId};
use range_space::Numbers;

/// A task of a plan with its locals, on which the expressions of its class are evaluated.
#[derive(Drop)]
pub struct TaskAt<'a> {
    /// The plan.
    pub plan: &'a Plan,
    /// The task, which is one of the plan's.
    pub task: &'a TaskId,
    /// Its locals.
    pub locals: &'a [i64],
    pub ghost of_job: { IsTask plan.now task.now } by { IsTask-prop plan.now task.now },
    pub ghost are_locals: { locals.now ≡ tasks.locals_of plan.now task.now },
}

// A task whose locals are its parameters, or None if the job has no such task.
fn lent<'a>(plan: &'a Plan, task: &'a TaskId) -> Option<TaskAt<'a>>
    requires { IsTask plan.now task.now → tasks.locals_of plan.now task.now ≡ task.now.params }
    ensures none { IfNone result (IsTask plan.now task.now → ⊥) }
    ensures some { IfSome result (λ at. (at.plan.now ≡ plan.now) × (at.task.now ≡ task.now)) }
{
    if !is_task(plan, task) {
        return None;
    }
    Some(TaskAt {
        plan,
        task,
        locals: task.params(),
    })
}

impl<'a> TaskAt<'a> {
    /// The task with its locals. If they are its parameters, they are borrowed from it; otherwise they replace what
    /// `room` holds.
    pub fn of(plan: &'a Plan, task: &'a TaskId, room: &'a mut Numbers<MOST_LOCALS>) -> TaskAt<'a>
        requires { IsTask plan.now task.now }
        ensures plan { result.plan.now ≡ plan.now }
        ensures task { result.task.now ≡ task.now }
    {
        if has_own_locals(plan, task) {
            return TaskAt {
                plan,
                task,
                locals: task.params(),
            };
        }
        fill_locals(plan, task, room);
        TaskAt {
            plan,
            task,
            locals: room.as_slice(),
        }
    }

    /// The task with its locals, or None if the job has no such task. If they are its parameters, they are borrowed
    /// from it; otherwise they replace what `room` holds.
    pub fn find(
        plan: &'a Plan,
        task: &'a TaskId,
        room: &'a mut Numbers<MOST_LOCALS>,
    ) -> Option<TaskAt<'a>>
        ensures none { IfNone result (IsTask plan.now task.now → ⊥) }
        ensures some { IfSome result (λ at. (at.plan.now ≡ plan.now) × (at.task.now ≡ task.now)) }
    {
        if has_own_locals(plan, task) {
            return lent(plan, task);
        }
        if !find_locals(plan, task, room) {
            return None;
        }
        Some(TaskAt {
            plan,
            task,
            locals: room.as_slice(),
        })
    }

    /// The flows of the class of the task.
    pub fn flows(&self) -> &'a [FlowPlan]
        ensures flows { result.now ≡ tasks.flows_of self.now.plan.now self.now.task.now }
        ensures at_most { length result.now ≤ most_flows }
        ensures fit { IsTrue (flows_fit self.now.plan.now result.now) }
    {
        flows_of(self.plan, self.task)
    }

    /// The flow of the task with this number, if there is one.
    pub fn flow(&self, number: u8) -> Option<&'a FlowPlan>
        ensures found { MatchOption result
            (length (tasks.flows_of self.now.plan.now self.now.task.now) ≤ number)
            (λ f. (number < length (tasks.flows_of self.now.plan.now self.now.task.now))
            × (slice_get (tasks.flows_of self.now.plan.now self.now.task.now) number ≡ Some f.now)) }
        ensures at_most { IfSome result (λ _. number < most_flows) }
        ensures fit { IfSome result (λ f. IsTrue
            (dependences_fit self.now.plan.now f.now.ins && dependences_fit self.now.plan.now f.now.outs)) }
    {
        let flows = self.flows();
        let at = number as usize;
        if at >= flows.len() {
            return None;
        }
        Some(&flows[at])
    }
}
