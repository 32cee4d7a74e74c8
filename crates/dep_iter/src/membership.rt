//! Whether a task has an edge, found from guards and ranges without a walk over its edges.

ghost use Rattle.std.specs.Prelude.{◌≡◌, ◌↔◌, ℕ, IsTrue, MatchOption, flat_map, take};
ghost use Rattle.ptg_base.specs.Lists.{IsIn};
ghost use Rattle.ptg_base.specs.Task.{Task};
ghost use Rattle.plan_core.specs.declared.flow.FlowPlan.{FlowPlan as FlowPlanValue};
ghost use Rattle.plan_core.specs.declared.plan.Plan.{Plan as PlanValue};
ghost use Rattle.dep_iter.specs.Active.{held_targets};
ghost use Rattle.dep_iter.specs.Arguments.{combinations};
ghost use Rattle.dep_iter.specs.Directions.{IsNearFlow, edges_before, edges_of, near_flow};
ghost use Rattle.dep_iter.specs.Links.{links_to};
ghost use Rattle.dep_iter.specs.Tasks as tasks;

use crate::argument::takes_value;
use crate::guard::held_target;
use crate::lent::LentEdge;
use crate::task_at::TaskAt;
use plan_core::{Arg, DepPlan, FlowPlan, Target};
use ptg_base::TaskId;
use term_core::Direction;

/// Whether these numbers are one of the combinations of the values of these arguments. The time depends on the
/// arguments alone, however many values they have.
pub fn has_combination(args: &[Arg], env: &[i64], params: &[i64]) -> bool
    ensures { IsTrue result ↔ IsIn params.now (combinations args.now env.now) }
{
    let Some((arg, others)) = args.split_first() else {
        return params.is_empty();
    };
    let Some((v, rest)) = params.split_first() else {
        return false;
    };
    if !takes_value(arg, env, *v) {
        return false;
    }
    has_combination(others, env, rest)
}

// Whether a target stands for a link with this flow of this task.
fn leads_to(target: &Target, env: &[i64], far: &TaskId, far_flow: u8) -> bool
    ensures { (n : ℕ) → IsTrue result ↔
        IsIn (record { near = n; far = far.now; far_flow = far_flow }) (links_to env.now n target.now) }
{
    let Target::Task(class, flow, args) = target else {
        return false;
    };
    if *class != far.class() {
        return false;
    }
    if *flow != far_flow {
        return false;
    }
    has_combination(args.as_slice(), env, far.params())
}

// Whether an active target of these dependences stands for a link with this flow of this task.
fn any_leads_to(first_only: bool, deps: &[DepPlan], env: &[i64], far: &TaskId, far_flow: u8) -> bool
    ensures { (n : ℕ) → IsTrue result ↔ IsIn (record { near = n; far = far.now; far_flow = far_flow })
        (flat_map (links_to env.now n) (held_targets first_only deps.now env.now)) }
{
    let Some((d, later)) = deps.split_first() else {
        return false;
    };
    let Some(target) = held_target(d, env) else {
        return any_leads_to(first_only, later, env, far, far_flow);
    };
    if leads_to(target, env, far, far_flow) {
        return true;
    }
    if first_only {
        return false;
    }
    any_leads_to(first_only, later, env, far, far_flow)
}

impl<'a> TaskAt<'a> {
    // The flow of the task that the edge names, if it names the task and one of its flows.
    fn named_flow(&self, direction: Direction, edge: &LentEdge) -> Option<&'a FlowPlan>
        ensures { MatchOption result
            ((f : FlowPlanValue) → IsNearFlow direction self.now.plan.now self.now.task.now edge.now f → ⊥)
            (λ f. IsNearFlow direction self.now.plan.now self.now.task.now edge.now f.now) }
    {
        let same_task = *edge.near_task(direction) == *self.task;
        if !same_task {
            return None;
        }
        self.flow(edge.near_flow(direction))
    }

    /// Whether the task has the edge, into it or out of it. The time depends on the dependences of one flow alone,
    /// however many edges they stand for.
    pub fn has_edge(&self, direction: Direction, edge: &LentEdge) -> bool
        ensures { IsTrue result ↔ IsIn edge.now (edges_of direction self.now.plan.now self.now.task.now) }
    {
        let Some(flow) = self.named_flow(direction, edge) else {
            return false;
        };
        any_leads_to(
            flow.kind.first_only(direction),
            flow.dependences(direction),
            self.locals,
            edge.far_task(direction),
            edge.far_flow(direction),
        )
    }
}

// The first k of these dependences, or all if there are fewer.
fn first_dependences<'a>(deps: &'a [DepPlan], k: usize) -> &'a [DepPlan]
    ensures { result.now ≡ take k deps.now }
{
    if k < deps.len() { &deps[..k] } else { deps }
}

/// Whether the edge comes from one of the first `k` dependences of this flow; the flow's task has these locals. While
/// dependence `k` is walked, this tells whether its edge comes from an earlier one too.
pub fn has_edge_before(
    flow: &FlowPlan,
    direction: Direction,
    env: &[i64],
    edge: &LentEdge,
    k: usize,
) -> bool
    ensures { (P : PlanValue) (t : Task) → env.now ≡ tasks.locals_of P t → IsNearFlow direction P t edge.now flow.now
        → IsTrue result ↔ IsIn edge.now (edges_before direction P t (near_flow direction edge.now) k) }
{
    any_leads_to(
        flow.kind.first_only(direction),
        first_dependences(flow.dependences(direction), k),
        env,
        edge.far_task(direction),
        edge.far_flow(direction),
    )
}
