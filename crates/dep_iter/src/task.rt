//! Tasks of a plan, their locals and their flows.

ghost use Rattle.std.specs.Prelude.{◌≡◌, ◌↔◌, ◌+◌, ◌<◌, ◌≤◌, ◌++◌, length, slice_get, Some, IsTrue, MatchOption};
ghost use Rattle.std.specs.Bool.{OnFalse, OnTrue};
ghost use Rattle.ptg_base.specs.Limits.{most_flows, most_locals, most_params};
ghost use Rattle.term_core.specs.WellSpace.{IsWellSpace};
ghost use Rattle.dep_iter.specs.Tasks as tasks;
ghost use Rattle.dep_iter.specs.Tasks.{IsTask};
ghost use Rattle.dep_iter.specs.Links.{flows_fit};

use plan_core::{FlowPlan, Plan};
use ptg_base::{MOST_LOCALS, TaskId};
use range_space::{Numbers, a_task_has_one_list_of_locals, in_space};
use term_core::ClassSpace;

// The space of a task's class, if the class exists and has as many parameters as the task has values; else the job has
// no such task.
fn space_for<'a>(plan: &'a Plan, t: &TaskId) -> Option<&'a ClassSpace>
    ensures { MatchOption result (IsTask plan.now t.now → ⊥)
        (λ s. (slice_get plan.now.spaces t.now.class ≡ Some s.now) × IsWellSpace s.now
        × (length s.now.params ≡ length t.now.params)) }
{
    if t.class() as usize >= plan.classes.len() {
        return None;
    }
    let space = plan.space(t.class());
    if space.params.as_slice().len() == t.params().len() {
        Some(space)
    } else {
        None
    }
}

/// Whether the job has this task: its class exists and has a task with these parameters.
pub fn is_task(plan: &Plan, t: &TaskId) -> bool
    ensures { IsTrue result ↔ IsTask plan.now t.now }
{
    let Some(space) = space_for(plan, t) else {
        return false;
    };
    in_space(space, t.params())
}

// Whether these numbers count up by one from this one on.
fn counts_from(first: u8, numbers: &[u8]) -> bool
    requires { first + length numbers.now ≤ most_params }
    ensures { result ≡ tasks.counts_from first numbers.now }
{
    match numbers.split_first() {
        Some((n, others)) => *n == first && counts_from(first + 1, others),
        None => true,
    }
}

// Whether the definitions of a class are its parameters, in their order.
fn params_are_locals(space: &ClassSpace) -> bool
    ensures { result ≡ tasks.params_are_locals space.now }
{
    let params = space.params.as_slice();
    params.len() == space.defs.len() && counts_from(0, params)
}

// Whether the locals of a task are its parameters, as its class shows. Then nothing is evaluated for them.
pub(crate) fn has_own_locals(plan: &Plan, t: &TaskId) -> bool
    ensures { OnTrue result (IsTask plan.now t.now → tasks.locals_of plan.now t.now ≡ t.now.params) }
{
    match space_for(plan, t) {
        Some(space) => params_are_locals(space),
        None => false,
    }
}

// Adds these values at the end.
fn push_all(values: &[i64], numbers: &mut Numbers<MOST_LOCALS>)
    requires { length numbers.old + length values.now ≤ most_locals }
    ensures { numbers.new ≡ numbers.old ++ values.now }
{
    let Some((v, others)) = values.split_first() else {
        return;
    };
    numbers.push(*v);
    push_all(others, numbers);
}

// Replaces these numbers by the parameters of a task.
fn copy_params(t: &TaskId, numbers: &mut Numbers<MOST_LOCALS>)
    ensures { numbers.new ≡ t.now.params }
{
    numbers.clear();
    push_all(t.params(), numbers);
}

/// Replaces these numbers by the locals of a task. Its definitions are evaluated even if its parameters are its locals.
pub fn fill_locals(plan: &Plan, t: &TaskId, locals: &mut Numbers<MOST_LOCALS>)
    requires { IsTask plan.now t.now }
    ensures { locals.new ≡ tasks.locals_of plan.now t.now }
{
    a_task_has_one_list_of_locals();
    range_space::fill_locals(plan.space(t.class()), t.params(), locals);
}

/// The locals of a task, on which the expressions of its class are evaluated.
pub fn locals_of(plan: &Plan, t: &TaskId) -> Numbers<MOST_LOCALS>
    requires { IsTask plan.now t.now }
    ensures { result ≡ tasks.locals_of plan.now t.now }
{
    let mut locals = Numbers::new();
    if has_own_locals(plan, t) {
        copy_params(t, &mut locals);
    } else {
        fill_locals(plan, t, &mut locals);
    }
    locals
}

/// Replaces these numbers by the locals of a task, and returns whether the job has the task. Takes one pass over the
/// definitions.
pub fn find_locals(plan: &Plan, t: &TaskId, locals: &mut Numbers<MOST_LOCALS>) -> bool
    ensures found { OnTrue result (IsTask plan.now t.now × (locals.new ≡ tasks.locals_of plan.now t.now)) }
    ensures none { OnFalse result (IsTask plan.now t.now → ⊥) }
{
    a_task_has_one_list_of_locals();
    let Some(space) = space_for(plan, t) else {
        return false;
    };
    range_space::find_locals(space, t.params(), locals)
}

/// The flows of the class of a task.
pub fn flows_of<'a>(plan: &'a Plan, t: &TaskId) -> &'a [FlowPlan]
    requires { IsTask plan.now t.now }
    ensures flows { result.now ≡ tasks.flows_of plan.now t.now }
    ensures at_most { length result.now ≤ most_flows }
    ensures fit { IsTrue (flows_fit plan.now result.now) }
{
    plan.each_class_has_a_space(t.class());
    plan.class(t.class()).flows.as_slice()
}
