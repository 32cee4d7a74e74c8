//! Resolves dependences and flows.

ghost use Rattle.std.specs.Prelude.{◌≡◌, ◌≤◌, [], IfOk, List, Some, length};
ghost use Rattle.std.specs.Option.{option_map_or};
ghost use Rattle.ptg_base.specs.Limits.{most_named_types};
ghost use Rattle.plan_core.specs.declared.flow.DepPlan.{DepPlan};
ghost use Rattle.type_rules.specs.Contexts.{IsContext, job_of};
ghost use Rattle.type_rules.specs.Returns.{ReturnsChecked, each_option};
ghost use Rattle.type_rules.specs.Targets.{target_of};
ghost use Rattle.type_rules.specs.Dependences.{target_faults, type_spot, type_faults, dependence_faults, dependence_of, is_of_direction, dependences_of, dependences_faults, directions_of, directions_faults, flow_faults, flow_from, flow_plan};

use crate::context::Context;
use crate::datatype::{flow_type, type_of_flow, type_of_written, written_type};
use crate::expression::option_term;
use crate::fault::fault_if;
use crate::part::{and_rules, join, with_part};
use crate::rule::target_rules;
use crate::target::{first_spot, named_target};
use coll_data::Given;
use jdf_lex::{JdfCode, JdfRefusal, Spot};
use jdf_tree::{DepTree, FlowTree, TargetTree, Word};
use plan_core::{DepPlan, FlowPlan, Target};
use ptg_base::{OutOfMemory, Seq, Text};
use term_core::Direction;

// Resolves a target of a flow and checks its rules.
fn target(
    context: &Context,
    flow: &FlowTree,
    direction: Direction,
    target: &TargetTree,
) -> Result<Target, JdfRefusal>
    requires { IsContext context.now }
    ensures { ReturnsChecked result (target_of (job_of context.now) context.now.seen.now target.now)
        (target_faults (job_of context.now) context.now.seen.now flow.now direction target.now) }
{
    and_rules(
        named_target(context, target),
        target_rules(context, flow, direction, target),
    )
}

// Resolves the second target of a dependence, if there is one.
fn second(
    context: &Context,
    flow: &FlowTree,
    direction: Direction,
    no: &Option<TargetTree>,
) -> Result<Option<Target>, JdfRefusal>
    requires { IsContext context.now }
    ensures { ReturnsChecked result (each_option (target_of (job_of context.now) context.now.seen.now) no.now)
        (option_map_or (target_faults (job_of context.now) context.now.seen.now flow.now direction) no.now []) }
{
    match no {
        None => Ok(None),
        Some(no) => Ok(Some(target(context, flow, direction, no)?)),
    }
}

// The spot of a fault of a dependence's datatype: that of the written name, or else of the first target.
fn type_spot(yes: &TargetTree, written: &Option<Word>) -> Spot
    ensures { result ≡ type_spot yes.now written.now }
{
    match written {
        None => first_spot(yes),
        Some(word) => word.spot,
    }
}

// Checks the rules for the datatype of a dependence.
fn type_rules(given: &Given, flow: &FlowTree, dependence: &DepTree) -> Result<(), JdfRefusal>
    requires { length given.now.types ≤ most_named_types }
    ensures { ReturnsChecked result (Some tt) (type_faults given.now flow.now dependence.now) }
{
    let differs = !flow.kind.is_control()
        && type_of_written(&dependence.datatype) != type_of_flow(flow);
    let spot = type_spot(&dependence.yes, &dependence.datatype);
    let same = fault_if(differs, spot, JdfCode::MixedTypes);
    match written_type(given, flow.kind, &dependence.datatype) {
        Ok(_) => same,
        Err(refusal) => and_rules(Err(refusal), same),
    }
}

// Resolves a dependence of a flow.
fn dependence(
    context: &Context,
    flow: &FlowTree,
    dependence: &DepTree,
) -> Result<DepPlan, JdfRefusal>
    requires { IsContext context.now }
    ensures { ReturnsChecked result (dependence_of (job_of context.now) context.now.seen.now dependence.now)
        (dependence_faults (job_of context.now) context.now.seen.now flow.now dependence.now) }
{
    let direction = dependence.direction;
    let targets = join(
        target(context, flow, direction, &dependence.yes),
        second(context, flow, direction, &dependence.no),
    );
    let known = join(option_term(context, &dependence.guard), targets);
    match and_rules(known, type_rules(context.given, flow, dependence)) {
        Err(refusal) => Err(refusal),
        Ok((guard, targets)) => Ok(DepPlan {
            guard,
            yes: targets.0,
            no: targets.1,
        }),
    }
}

// Whether a dependence has this direction.
fn is_of_direction(direction: Direction, dependence: &DepTree) -> bool
    ensures { result ≡ is_of_direction direction dependence.now }
{
    dependence.direction == direction
}

// Resolves the dependences of a flow in one direction.
fn dependences(
    context: &Context,
    flow: &FlowTree,
    direction: Direction,
    deps: &[DepTree],
) -> Result<Seq<DepPlan>, JdfRefusal>
    requires { IsContext context.now }
    ensures { ReturnsChecked result (dependences_of (job_of context.now) context.now.seen.now direction deps.now)
        (dependences_faults (job_of context.now) context.now.seen.now flow.now direction deps.now) }
{
    let mut parts = Ok(Seq::new(context.alloc));
    for each in deps {
        if is_of_direction(direction, each) {
            parts = with_part(parts, dependence(context, flow, each));
        }
    }
    parts
}

// Resolves the dependences of a flow in both directions.
fn both_directions(
    context: &Context,
    flow: &FlowTree,
) -> Result<(Seq<DepPlan>, Seq<DepPlan>), JdfRefusal>
    requires { IsContext context.now }
    ensures { ReturnsChecked {A = List DepPlan × List DepPlan} result
        (directions_of (job_of context.now) context.now.seen.now flow.now.deps)
        (directions_faults (job_of context.now) context.now.seen.now flow.now flow.now.deps) }
{
    let deps = flow.deps.as_slice();
    join(
        dependences(context, flow, Direction::In, deps),
        dependences(context, flow, Direction::Out, deps),
    )
}

// The plan of a flow, from its datatype and its dependences.
fn flow_with(
    context: &Context,
    flow: &FlowTree,
    datatype: u32,
    deps: (Seq<DepPlan>, Seq<DepPlan>),
) -> Result<FlowPlan, OutOfMemory>
    ensures { IfOk result (λ plan. plan ≡ flow_from flow.now datatype deps) }
{
    Ok(FlowPlan {
        name: Text::of(context.alloc, flow.name.text.bytes())?,
        kind: flow.kind,
        datatype,
        ins: deps.0,
        outs: deps.1,
    })
}

/// Resolves a flow of a class.
pub fn flow(context: &Context, flow: &FlowTree) -> Result<FlowPlan, JdfRefusal>
    requires { IsContext context.now }
    ensures { ReturnsChecked result (flow_plan (job_of context.now) context.now.seen.now flow.now)
        (flow_faults (job_of context.now) context.now.seen.now flow.now) }
{
    let deps = both_directions(context, flow);
    match join(flow_type(context.given, flow), deps) {
        Err(refusal) => Err(refusal),
        Ok((datatype, deps)) => Ok(flow_with(context, flow, datatype, deps)?),
    }
}
