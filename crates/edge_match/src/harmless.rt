//! Classes all of whose expressions have values, as their forms show. Their tasks need no test of that.

ghost use Rattle.std.specs.Prelude.{is_ok};
ghost use Rattle.std.specs.Bool.{OnTrue};
ghost use Rattle.std.specs.List.{list_all};
ghost use Rattle.range_space.specs.Fault.{range_values, step_number};
ghost use Rattle.dep_iter.specs.Well.{has_arg, has_arguments, has_hints, has_priority, has_value, is_well_flow};
ghost use Rattle.edge_match.specs.Harmless.{AreHarmlessDeps, IsHarmlessClass, IsHarmlessDep, OnSmall, has_arguments_if_any};

use plan_core::{Arg, ClassPlan, DepPlan, FlowPlan, Target};
use term_core::{Expr, Range, bound_of};

// Whether the expression has a value on all small locals.
fn is_harmless(e: &Expr) -> bool
    ensures { OnTrue result (OnSmall (λ env. has_value env e.now)) }
{
    bound_of(e).is_some()
}

// Whether each of these expressions has a value on all small locals.
fn are_harmless(es: &[Expr]) -> bool
    ensures { OnTrue result (OnSmall (λ env. list_all (has_value env) es.now)) }
{
    let Some((e, others)) = es.split_first() else {
        return true;
    };
    if !is_harmless(e) {
        return false;
    }
    are_harmless(others)
}

// Whether a guard or a priority, if there is one, has a value on all small locals.
fn is_harmless_if_any(e: &Option<Expr>) -> bool
    ensures { OnTrue result (OnSmall (λ env. has_priority env e.now)) }
{
    match e {
        Some(e) => is_harmless(e),
        None => true,
    }
}

// Whether the step of a range has a value other than 0 on all small locals.
fn is_harmless_step(step: &Option<Expr>) -> bool
    ensures { OnTrue result (OnSmall (λ env. is_ok (step_number step.now env))) }
{
    let Some(e) = step else {
        return true;
    };
    match bound_of(e) {
        Some(bound) => bound.nonzero,
        None => false,
    }
}

// Whether a range has its values on all small locals.
fn is_harmless_range(range: &Range) -> bool
    ensures { OnTrue result (OnSmall (λ env. is_ok (range_values range.now env))) }
{
    if !is_harmless(&range.lo) {
        return false;
    }
    if !is_harmless(&range.hi) {
        return false;
    }
    is_harmless_step(&range.step)
}

// Whether an argument has its values on all small locals.
fn is_harmless_arg(arg: &Arg) -> bool
    ensures { OnTrue result (OnSmall (λ env. has_arg env arg.now)) }
{
    match arg {
        Arg::One(e) => is_harmless(e),
        Arg::Span(range) => is_harmless_range(range),
    }
}

// Whether each of these arguments has its values on all small locals.
fn are_harmless_args(args: &[Arg]) -> bool
    ensures { OnTrue result (OnSmall (λ env. list_all (has_arg env) args.now)) }
{
    let Some((arg, others)) = args.split_first() else {
        return true;
    };
    if !is_harmless_arg(arg) {
        return false;
    }
    are_harmless_args(others)
}

// Whether the arguments or the indices of a target have their values on all small locals.
fn is_harmless_target(target: &Target) -> bool
    ensures { OnTrue result (OnSmall (λ env. has_arguments env target.now)) }
{
    match target {
        Target::Task(_, _, args) => are_harmless_args(args.as_slice()),
        Target::Element(_, indices) => are_harmless(indices.as_slice()),
        Target::New => true,
        Target::Null => true,
    }
}

// The same of a target that may be left out.
fn is_harmless_target_if_any(target: &Option<Target>) -> bool
    ensures { OnTrue result (OnSmall (λ env. has_arguments_if_any env target.now)) }
{
    match target {
        Some(target) => is_harmless_target(target),
        None => true,
    }
}

// Whether the guard and the targets of a dependence have their values on all small locals.
fn is_harmless_dependence(d: &DepPlan) -> bool
    ensures { OnTrue result (IsHarmlessDep d.now) }
{
    if !is_harmless_if_any(&d.guard) {
        return false;
    }
    if !is_harmless_target(&d.yes) {
        return false;
    }
    is_harmless_target_if_any(&d.no)
}

// Whether all these dependences have their values on all small locals.
fn are_harmless_dependences(deps: &[DepPlan]) -> bool
    ensures { OnTrue result (AreHarmlessDeps deps.now) }
{
    let Some((d, others)) = deps.split_first() else {
        return true;
    };
    if !is_harmless_dependence(d) {
        return false;
    }
    are_harmless_dependences(others)
}

// Whether all dependences of a flow have their values on all small locals.
fn is_harmless_flow(flow: &FlowPlan) -> bool
    ensures { OnTrue result (OnSmall (λ env. is_well_flow env flow.now)) }
{
    if !are_harmless_dependences(flow.ins.as_slice()) {
        return false;
    }
    are_harmless_dependences(flow.outs.as_slice())
}

// Whether all dependences of these flows have their values on all small locals.
fn are_harmless_flows(flows: &[FlowPlan]) -> bool
    ensures { OnTrue result (OnSmall (λ env. list_all (is_well_flow env) flows.now)) }
{
    let Some((flow, others)) = flows.split_first() else {
        return true;
    };
    if !is_harmless_flow(flow) {
        return false;
    }
    are_harmless_flows(others)
}

// Whether the affinity and the priority have their values on all small locals.
fn has_harmless_hints(class: &ClassPlan) -> bool
    ensures { OnTrue result (OnSmall (λ env. has_hints env class.now)) }
{
    if !are_harmless(class.affinity.indices.as_slice()) {
        return false;
    }
    is_harmless_if_any(&class.priority)
}

// Whether all expressions of a class have values on all small locals.
pub(crate) fn is_harmless_class(class: &ClassPlan) -> bool
    ensures { OnTrue result (IsHarmlessClass class.now) }
{
    if !has_harmless_hints(class) {
        return false;
    }
    are_harmless_flows(class.flows.as_slice())
}
