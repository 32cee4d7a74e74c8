//! Whether each expression that a task needs has a value.

ghost use Rattle.std.specs.Prelude.{◌≡◌, ◌+◌, ◌≤◌, length, Some, None, IfErr, IfOk};
ghost use Rattle.std.specs.List.{list_all};
ghost use Rattle.ptg_base.specs.Limits.{most_flows};
ghost use Rattle.dep_iter.specs.Tasks as tasks;
ghost use Rattle.dep_iter.specs.Tasks.{IsTask};
ghost use Rattle.dep_iter.specs.Well as well;

use crate::argument::arg_steps;
use crate::guard::{guard_value, target_by};
use crate::task_at::TaskAt;
use plan_core::{Arg, ClassPlan, DepPlan, FlowPlan, Plan, Target};
use ptg_base::TaskId;
use range_space::Numbers;
use term_core::{Expr, eval};

/// A task needs an expression that has no value, or a range of step 0.
#[derive(Clone, Copy, Debug, PartialEq, Eq)]
pub struct IllTask {
    /// The first ill flow; None if the affinity or the priority is ill.
    pub flow: Option<u8>,
}

// Whether the expression has a value.
fn has_value(env: &[i64], e: &Expr) -> bool
    ensures { result ≡ well.has_value env.now e.now }
{
    eval(e, env).is_ok()
}

// Whether each of these expressions has a value.
fn have_values(env: &[i64], es: &[Expr]) -> bool
    ensures { result ≡ list_all (well.has_value env.now) es.now }
{
    match es.split_first() {
        Some((e, others)) => has_value(env, e) && have_values(env, others),
        None => true,
    }
}

// Whether the priority has a value, if there is one.
fn has_priority(env: &[i64], priority: &Option<Expr>) -> bool
    ensures { result ≡ well.has_priority env.now priority.now }
{
    match priority {
        Some(e) => has_value(env, e),
        None => true,
    }
}

// Whether each of these arguments has its values.
fn args_have_values(env: &[i64], args: &[Arg]) -> bool
    ensures { result ≡ list_all (well.has_arg env.now) args.now }
{
    match args.split_first() {
        Some((arg, others)) => arg_steps(arg, env).is_some() && args_have_values(env, others),
        None => true,
    }
}

/// Whether the arguments or the indices of a target have their values.
pub fn has_arguments(env: &[i64], target: &Target) -> bool
    ensures { result ≡ well.has_arguments env.now target.now }
{
    match target {
        Target::Task(_, _, args) => args_have_values(env, args.as_slice()),
        Target::Element(_, indices) => have_values(env, indices.as_slice()),
        Target::New => true,
        Target::Null => true,
    }
}

// Whether each expression that these dependences need has a value. If only the first that holds counts, the dependences
// after it are not needed.
fn are_well(first_only: bool, env: &[i64], deps: &[DepPlan]) -> bool
    ensures { result ≡ well.are_well first_only env.now deps.now }
{
    let Some((d, later)) = deps.split_first() else {
        return true;
    };
    let Ok(holds) = guard_value(&d.guard, env) else {
        return false;
    };
    match target_by(d, holds) {
        Some(target) => has_arguments(env, target)
            && (first_only || are_well(first_only, env, later)),
        None => are_well(first_only, env, later),
    }
}

// Whether each expression that the dependences of a flow need has a value.
fn is_well_flow(env: &[i64], flow: &FlowPlan) -> bool
    ensures { result ≡ well.is_well_flow env.now flow.now }
{
    are_well(flow.kind.is_data(), env, flow.ins.as_slice())
        && are_well(false, env, flow.outs.as_slice())
}

// The number of the first of these flows that is ill, if there is one.
fn first_ill_flow(env: &[i64], number: u8, flows: &[FlowPlan]) -> Option<u8>
    requires { number + length flows.now ≤ most_flows }
    ensures { result ≡ well.first_ill_flow env.now number flows.now }
{
    let (flow, others) = flows.split_first()?;
    if is_well_flow(env, flow) {
        first_ill_flow(env, number + 1, others)
    } else {
        Some(number)
    }
}

// Whether the affinity and the priority have their values.
fn has_hints(env: &[i64], class: &ClassPlan) -> bool
    ensures { result ≡ well.has_hints env.now class.now }
{
    have_values(env, class.affinity.indices.as_slice()) && has_priority(env, &class.priority)
}

impl TaskAt<'_> {
    /// Whether each expression that the task needs has a value, and no range that it needs has step 0. It needs those
    /// of its affinity and priority, the guards of the dependences that are reached, and the arguments of the active
    /// targets. An `Err` names what is ill first: the affinity or the priority, or a flow.
    #[tactic(auto, unfolding(crate::specs::Well::ill_part))]
    pub fn well(&self) -> Result<(), IllTask>
        ensures well { IfOk result (λ _. well.ill_part self.now.plan.now self.now.task.now ≡ None) }
        ensures ill { IfErr result (λ e. well.ill_part self.now.plan.now self.now.task.now ≡ Some e.flow) }
    {
        if !has_hints(self.locals, self.plan.class(self.task.class())) {
            return Err(IllTask { flow: None });
        }
        match first_ill_flow(self.locals, 0, self.flows()) {
            Some(flow) => Err(IllTask { flow: Some(flow) }),
            None => Ok(()),
        }
    }
}

/// Whether a task is well; an `Err` names what is ill first.
pub fn well_task(plan: &Plan, t: &TaskId) -> Result<(), IllTask>
    requires { IsTask plan.now t.now }
    ensures well { IfOk result (λ _. well.ill_part plan.now t.now ≡ None) }
    ensures ill { IfErr result (λ e. well.ill_part plan.now t.now ≡ Some e.flow) }
{
    TaskAt::of(plan, t, &mut Numbers::new()).well()
}
