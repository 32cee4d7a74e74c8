//! Whether a task is the source of an edge into another, by guards and ranges, without a walk over the edges.

ghost use Rattle.std.specs.Prelude.{◌≡◌, ◌↔◌, ℕ, IsTrue, flat_map, map, true};
ghost use Rattle.ptg_base.specs.Lists.{IsIn};
ghost use Rattle.term_core.specs.declared.direction.Direction.TheVariants.{In};
ghost use Rattle.dep_iter.specs.declared.link.Link.{Link as LinkValue};
ghost use Rattle.dep_iter.specs.Active.{by_flow, flow_targets, held_targets};
ghost use Rattle.dep_iter.specs.Edges as edges;
ghost use Rattle.dep_iter.specs.Links.{all_links, links_to};

use dep_iter::{TaskAt, has_combination, held_target};
use plan_core::{DepPlan, FlowPlan, Target};
use ptg_base::TaskId;

// Whether this task is at the other end of a link that a target stands for.
fn names(target: &Target, env: &[i64], far: &TaskId) -> bool
    ensures { (n : ℕ) → IsTrue result ↔ IsIn far.now (map (λ (l : LinkValue). l.far) (links_to env.now n target.now)) }
{
    let Target::Task(class, _, args) = target else {
        return false;
    };
    if *class != far.class() {
        return false;
    }
    has_combination(args.as_slice(), env, far.params())
}

// Whether this task is at the other end of a link of these dependences: of the first active one if `first_only`, else
// of any active one.
fn any_names(first_only: bool, deps: &[DepPlan], env: &[i64], far: &TaskId) -> bool
    ensures { (n : ℕ)
        → IsTrue result
        ↔ IsIn far.now
        (map (λ (l : LinkValue). l.far)
        (flat_map (links_to env.now n) (held_targets first_only deps.now env.now))) }
{
    let Some((d, later)) = deps.split_first() else {
        return false;
    };
    let Some(target) = held_target(d, env) else {
        return any_names(first_only, later, env, far);
    };
    if names(target, env, far) {
        return true;
    }
    if first_only {
        return false;
    }
    any_names(first_only, later, env, far)
}

// Whether this task is at the other end of a link of the active in dependences of these flows.
fn any_flow_names(flows: &[FlowPlan], env: &[i64], far: &TaskId) -> bool
    ensures { (n : ℕ)
        → IsTrue result
        ↔ IsIn far.now
        (map (λ (l : LinkValue). l.far) (all_links env.now (by_flow (flow_targets In env.now) n flows.now))) }
{
    let Some((flow, others)) = flows.split_first() else {
        return false;
    };
    if any_names(flow.kind.is_data(), flow.ins.as_slice(), env, far) {
        return true;
    }
    any_flow_names(others, env, far)
}

// Whether an edge into a task comes from `source`. Takes time by the number of the task's in dependences, however many
// edges they stand for.
pub(crate) fn has_source(at: &TaskAt, source: &TaskId) -> bool
    ensures { IsTrue result ↔ IsIn source.now (edges.sources at.now.plan.now at.now.task.now) }
{
    any_flow_names(at.flows(), at.locals, source)
}
