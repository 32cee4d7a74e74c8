//! Checks which targets a flow may have, given its kind and its datatype.

ghost use Rattle.std.specs.Prelude.{◌≡◌, ◌≤◌, Some, length, option_copied};
ghost use Rattle.ptg_base.specs.Limits.{most_named_types};
ghost use Rattle.type_rules.specs.Contexts.{IsContext, job_of};
ghost use Rattle.type_rules.specs.Returns.{ReturnsChecked};
ghost use Rattle.type_rules.specs.Rules.{flow_of_target, is_mixed, is_no_start, is_new, task_ranges, in_faults, out_faults, has_other_type, type_differs, rule_faults};
ghost use Rattle.type_rules.specs.Names.{class_of};

use crate::argument::no_ranges;
use crate::context::{Context, class_named, coll_named};
use crate::datatype::{type_number, type_of_flow};
use crate::fault::fault_if;
use crate::kind::are_mixed;
use crate::part::and_rules;
use crate::target::{first_spot, flow_named};
use coll_data::Given;
use jdf_lex::{JdfCode, JdfRefusal};
use jdf_tree::{ClassTree, FlowTree, TargetTree};
use ptg_base::Text;
use term_core::{Direction, FlowKind};

// The first class with this name.
fn class_of<'a>(context: &Context<'a>, name: &Text) -> Option<&'a ClassTree>
    requires { IsContext context.now }
    ensures { option_copied result ≡ class_of (job_of context.now) name.now }
{
    let number = class_named(context, name)?;
    Some(context.jdf.classes.get(number))
}

// The flow that a target names, if it names a flow of a task that exists.
fn flow_of_target<'a>(context: &Context<'a>, target: &TargetTree) -> Option<&'a FlowTree>
    requires { IsContext context.now }
    ensures { option_copied result ≡ flow_of_target (job_of context.now) target.now }
{
    match target {
        TargetTree::Task(flow, class, _) => {
            let class = class_of(context, &class.text)?;
            let number = flow_named(class, &flow.text)?;
            Some(class.flows.get(number))
        }
        TargetTree::Element(_, _) => None,
        TargetTree::New(_) => None,
        TargetTree::Null(_) => None,
    }
}

// Whether the target mixes order with tiles: a CTL flow has a target that is no CTL flow, or another flow has a CTL
// flow as its target. A flow that doesn't exist mixes nothing.
fn is_mixed(context: &Context, kind: FlowKind, target: &TargetTree) -> bool
    requires { IsContext context.now }
    ensures { result ≡ is_mixed (job_of context.now) kind target.now }
{
    match target {
        TargetTree::Task(_, _, _) => match flow_of_target(context, target) {
            None => false,
            Some(named) => are_mixed(kind, named.kind),
        },
        TargetTree::Element(_, _) => kind.is_control(),
        TargetTree::New(_) => kind.is_control(),
        TargetTree::Null(_) => kind.is_control(),
    }
}

// Whether the target cannot be the source of a tile that is only written: it is a flow of a task, or `NULL`.
fn is_no_start(target: &TargetTree) -> bool
    ensures { result ≡ is_no_start target.now }
{
    match target {
        TargetTree::Task(_, _, _) => true,
        TargetTree::Element(_, _) => false,
        TargetTree::New(_) => false,
        TargetTree::Null(_) => true,
    }
}

// Whether the target is a new tile.
fn is_new(target: &TargetTree) -> bool
    ensures { result ≡ is_new target.now }
{
    match target {
        TargetTree::Task(_, _, _) => false,
        TargetTree::Element(_, _) => false,
        TargetTree::New(_) => true,
        TargetTree::Null(_) => false,
    }
}

// Refuses the ranges in a task target.
fn task_ranges(target: &TargetTree) -> Result<(), JdfRefusal>
    ensures { ReturnsChecked result (Some tt) (task_ranges target.now) }
{
    match target {
        TargetTree::Task(_, _, args) => no_ranges(JdfCode::RangeInDataInput, args.as_slice()),
        TargetTree::Element(_, _) => Ok(()),
        TargetTree::New(_) => Ok(()),
        TargetTree::Null(_) => Ok(()),
    }
}

// Checks the target of an in dependence of a flow of this kind.
fn in_rules(kind: FlowKind, target: &TargetTree) -> Result<(), JdfRefusal>
    ensures { ReturnsChecked result (Some tt) (in_faults kind target.now) }
{
    let is_wrong = kind.is_write() && is_no_start(target);
    let ranges = if kind.is_control() {
        Ok(())
    } else {
        task_ranges(target)
    };
    and_rules(
        fault_if(is_wrong, first_spot(target), JdfCode::WriteInput),
        ranges,
    )
}

// Checks the target of an out dependence.
fn out_rules(target: &TargetTree) -> Result<(), JdfRefusal>
    ensures { ReturnsChecked result (Some tt) (out_faults target.now) }
{
    fault_if(is_new(target), first_spot(target), JdfCode::NewSent)
}

// Whether the tiles of the collection with this number are not of the type with this name.
fn has_other_type(given: &Given, name: &[u8], number: u32) -> bool
    requires { length given.now.types ≤ most_named_types }
    ensures { result ≡ has_other_type given.now name.now number }
{
    let Some(coll) = given.colls().get(number as usize) else {
        return false;
    };
    match type_number(given, name) {
        None => true,
        Some(datatype) => datatype != coll.datatype,
    }
}

// Whether a target is a flow with tiles, or an element, of another type than this one.
fn type_differs(context: &Context, name: &[u8], target: &TargetTree) -> bool
    requires { IsContext context.now }
    ensures { result ≡ type_differs (job_of context.now) name.now target.now }
{
    match target {
        TargetTree::Task(_, _, _) => match flow_of_target(context, target) {
            None => false,
            Some(named) => !named.kind.is_control() && type_of_flow(named) != name,
        },
        TargetTree::Element(coll, _) => match coll_named(context, &coll.text) {
            None => false,
            Some(number) => has_other_type(context.given, name, number),
        },
        TargetTree::New(_) => false,
        TargetTree::Null(_) => false,
    }
}

/// Checks a target of this flow, in a dependence in this direction.
pub(crate) fn target_rules(
    context: &Context,
    flow: &FlowTree,
    direction: Direction,
    target: &TargetTree,
) -> Result<(), JdfRefusal>
    requires { IsContext context.now }
    ensures { ReturnsChecked result (Some tt) (rule_faults (job_of context.now) flow.now direction target.now) }
{
    let spot = first_spot(target);
    let is_mixed = is_mixed(context, flow.kind, target);
    let differs = !flow.kind.is_control() && type_differs(context, type_of_flow(flow), target);
    let fits = and_rules(
        fault_if(is_mixed, spot, JdfCode::CtlMixed),
        fault_if(differs, spot, JdfCode::TypeDiffers),
    );
    match direction {
        Direction::In => and_rules(fits, in_rules(flow.kind, target)),
        Direction::Out => and_rules(fits, out_rules(target)),
    }
}
