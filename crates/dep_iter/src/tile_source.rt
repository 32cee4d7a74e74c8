//! Where the tile of a data flow comes from.

ghost use Rattle.std.specs.Prelude.{◌≡◌, ◌+◌, ◌≤◌, ◌++◌, length, map, IsTrue};
ghost use Rattle.ptg_base.specs.Limits.{most_params};
ghost use Rattle.plan_core.specs.declared.target.Target.TheVariants.{Task};
ghost use Rattle.dep_iter.specs.Active.{flow_ins};
ghost use Rattle.dep_iter.specs.Arguments as arguments;
ghost use Rattle.dep_iter.specs.Edges as edges;
ghost use Rattle.dep_iter.specs.Links.{dependences_fit, fits};
ghost use Rattle.dep_iter.specs.Tasks as tasks;
ghost use Rattle.dep_iter.specs.Tasks.{IsTask};

use crate::links::arguments_at_most;
use crate::place::{place_of, value_or_zero};
use crate::position::next_held;
use crate::source::Source;
use crate::task_at::TaskAt;
use plan_core::{Arg, FlowPlan, Plan, Target};
use ptg_base::{Edge, MOST_PARAMS, TaskId};
use range_space::Numbers;

// The value of an argument that is no range; 0 for a range.
fn single_value(env: &[i64], arg: &Arg) -> i64
    ensures { result ≡ arguments.single_value env.now arg.now }
{
    match arg {
        Arg::One(e) => value_or_zero(env, e),
        Arg::Span(_) => 0,
    }
}

// Adds the value of each of these arguments.
fn push_single(args: &[Arg], env: &[i64], values: &mut Numbers<MOST_PARAMS>)
    requires { length values.old + length args.now ≤ most_params }
    ensures { values.new ≡ values.old ++ map (arguments.single_value env.now) args.now }
{
    let Some((arg, others)) = args.split_first() else {
        return;
    };
    values.push(single_value(env, arg));
    push_single(others, env, values);
}

// The task that these arguments name, none of which is a range.
fn single_task(class: u32, args: &[Arg], env: &[i64]) -> TaskId
    requires { length args.now ≤ most_params }
    ensures { result ≡ tasks.task class (map (arguments.single_value env.now) args.now) }
{
    let mut values = Numbers::new();
    push_single(args, env, &mut values);
    TaskId::new(class, values.as_slice())
}

// The source that the target of an in dependence of this flow stands for.
fn source_at(plan: &Plan, t: &TaskId, env: &[i64], flow: u8, target: &Target) -> Source
    requires { IsTrue (fits plan.now target.now) }
    ensures { result ≡ edges.source_at t.now env.now flow target.now }
{
    match target {
        Target::Task(class, out_flow, args) => {
            arguments_at_most(plan, *class, *out_flow, args.as_slice());
            Source::Task(Edge {
                from: single_task(*class, args.as_slice(), env),
                out_flow: *out_flow,
                to: t.copy(),
                in_flow: flow,
            })
        }
        Target::Element(coll, indices) => Source::Place(place_of(*coll, indices.as_slice(), env)),
        Target::New => Source::New,
        Target::Null => Source::Null,
    }
}

// Where the tile of this flow of a task comes from.
fn flow_source(plan: &Plan, t: &TaskId, env: &[i64], number: u8, flow: &FlowPlan) -> Source
    requires { IsTrue (dependences_fit plan.now flow.now.ins) }
    ensures { result ≡ edges.source_among t.now env.now number (flow_ins env.now flow.now) }
{
    match next_held(flow.kind.is_data(), flow.ins.as_slice(), env) {
        Some((target, _)) => source_at(plan, t, env, number, target),
        None => Source::Nothing,
    }
}

impl TaskAt<'_> {
    /// Where the tile of a data flow of the task comes from: the target of the first in dependence that holds. Returns
    /// `Source::Nothing` if and only if none holds or there is no such flow.
    pub fn data_source(&self, flow: u8) -> Source
        ensures { result ≡ edges.data_source self.now.plan.now self.now.task.now flow }
    {
        match self.flow(flow) {
            Some(of) => flow_source(self.plan, self.task, self.locals, flow, of),
            None => Source::Nothing,
        }
    }
}

/// Where the tile of a data flow of a task comes from. Returns `Source::Nothing` if and only if no in dependence holds
/// or there is no such flow.
pub fn data_source(plan: &Plan, t: &TaskId, flow: u8) -> Source
    requires { IsTask plan.now t.now }
    ensures { result ≡ edges.data_source plan.now t.now flow }
{
    TaskAt::of(plan, t, &mut Numbers::new()).data_source(flow)
}
