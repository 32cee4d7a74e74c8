//! The number of edges into a task: 1 for each plain edge, and for a gather the product of the counts of its ranges.
//! Counts saturate at the greatest number of their type.

ghost use Rattle.std.specs.Prelude.{◌≡◌, [], IsTrue, length};
ghost use Rattle.std.specs.List.{list_all};
ghost use Rattle.std.specs.Result.{result_unwrap_or};
ghost use Rattle.range_space.specs.Fault.{range_values};
ghost use Rattle.dep_iter.specs.Arguments.{combinations};
ghost use Rattle.dep_iter.specs.Consistent.{IsConsistent};
ghost use Rattle.dep_iter.specs.Edges as edges;
ghost use Rattle.dep_iter.specs.Tasks.{IsTask};
ghost use Rattle.dep_iter.specs.Well.{are_well, has_arg, has_arguments, is_well_flow};
ghost use Rattle.goal_count.specs.Counting as counting;
ghost use Rattle.goal_count.specs.Counting.{IsCount};

use dep_iter::{
    Matched, TaskAt, a_task_has_no_more_edges_than_the_job, edges_are_links, held_target,
};
use plan_core::{Arg, DepPlan, FlowPlan, Target};
use ptg_base::TaskId;
use range_space::{Numbers, steps_of};
use term_core::Range;

// How many values a range has.
fn value_count(range: &Range, env: &[i64]) -> u64
    ensures { IsCount result (length (result_unwrap_or (range_values range.now env.now) [])) }
{
    match steps_of(range, env) {
        Ok(steps) => steps.count().min(u128::from(u64::MAX)) as u64,
        Err(_) => 0,
    }
}

/// How many combinations the values of these arguments have: the product of their counts. An argument without a value
/// makes it 0, however many values the others have. A result over 4,000,000 says only that there are more than that. An
/// argument that is no range counts as one value, and is not evaluated.
pub fn combination_count(args: &[Arg], env: &[i64]) -> u64
    requires { IsTrue (list_all (has_arg env.now) args.now) }
    ensures { IsCount result (length (combinations args.now env.now)) }
{
    let Some((arg, others)) = args.split_first() else {
        return 1;
    };
    match arg {
        Arg::One(_) => combination_count(others, env),
        Arg::Span(range) => {
            let here = value_count(range, env);
            here.saturating_mul(combination_count(others, env))
        }
    }
}

// How many edges a target stands for.
fn target_count(target: &Target, env: &[i64]) -> u64
    requires { IsTrue (has_arguments env.now target.now) }
    ensures { IsCount result (counting.target_count env.now target.now) }
{
    match target {
        Target::Task(_, _, args) => combination_count(args.as_slice(), env),
        Target::Element(_, _) => 0,
        Target::New => 0,
        Target::Null => 0,
    }
}

// How many edges these dependences stand for.
fn held_count(first_only: bool, deps: &[DepPlan], env: &[i64]) -> u64
    requires { IsTrue (are_well first_only env.now deps.now) }
    ensures { IsCount result (counting.held_count first_only deps.now env.now) }
{
    let Some((d, later)) = deps.split_first() else {
        return 0;
    };
    let Some(target) = held_target(d, env) else {
        return held_count(first_only, later, env);
    };
    let here = target_count(target, env);
    if first_only {
        return here;
    }
    here.saturating_add(held_count(first_only, later, env))
}

// How many edges go into these flows.
fn flows_count(flows: &[FlowPlan], env: &[i64]) -> u64
    requires { IsTrue (list_all (is_well_flow env.now) flows.now) }
    ensures { IsCount result (counting.flows_count env.now flows.now) }
{
    let Some((flow, others)) = flows.split_first() else {
        return 0;
    };
    let here = held_count(flow.kind.is_data(), flow.ins.as_slice(), env);
    here.saturating_add(flows_count(others, env))
}

/// How many edges go into a task of a consistent plan. No edge is walked.
pub fn goal_of(at: &TaskAt) -> u32
    requires { IsConsistent at.now.plan.now }
    ensures { result ≡ edges.goal at.now.plan.now at.now.task.now }
{
    a_task_has_no_more_edges_than_the_job();
    edges_are_links();
    flows_count(at.flows(), at.locals) as u32
}

/// How many edges go into a task of a consistent plan. No edge is walked.
pub fn goal(m: &Matched, t: &TaskId) -> u32
    requires { IsTask m.now t.now }
    ensures { result ≡ edges.goal m.now t.now }
{
    goal_of(&TaskAt::of(m.plan(), t, &mut Numbers::new()))
}
