//! The flow of a task by its number.

ghost use Rattle.std.specs.Prelude.{◌≡◌, ◌<◌, IfSome, length, slice_get};
ghost use Rattle.std.specs.Option.{option_copied};
ghost use Rattle.dep_iter.specs.Tasks as tasks;
ghost use Rattle.dep_iter.specs.Tasks.{IsTask};

use dep_iter::flows_of;
use plan_core::{FlowPlan, Plan};
use ptg_base::TaskId;

/// The flow of a task with this number, if it has one. Its type is one of the plan's.
pub fn flow_at<'a>(plan: &'a Plan, t: &TaskId, number: u8) -> Option<&'a FlowPlan>
    requires { IsTask plan.now t.now }
    ensures flow { option_copied result ≡ slice_get (tasks.flows_of plan.now t.now) number }
    ensures known { IfSome result (λ flow. flow.now.datatype < length plan.now.elems) }
{
    flows_of(plan, t).get(number as usize)
}
