//! Resolves the names of targets.

ghost use Rattle.std.specs.Prelude.{◌≡◌, ◌<◌, ◌++◌, ℕ, IfSome, is_none, length};
ghost use Rattle.jdf_lex.specs.declared.fault.JdfCode.TheVariants.{NoSuchFlow};
ghost use Rattle.jdf_tree.specs.TreeLimits.{IsClassWithinLimits};
ghost use Rattle.plan_core.specs.declared.target.Target.TheVariants.{Task};
ghost use Rattle.type_rules.specs.Arguments.{arguments_faults, arguments_of};
ghost use Rattle.type_rules.specs.Contexts.{IsContext, job_of};
ghost use Rattle.type_rules.specs.Faults.{fault_if};
ghost use Rattle.type_rules.specs.Names.{class_of, flow_named};
ghost use Rattle.type_rules.specs.Returns.{ReturnsChecked, both};
ghost use Rattle.type_rules.specs.Targets.{first_spot, task_faults, task_of, named_faults, target_of};

use crate::argument::arguments;
use crate::coll_element::element;
use crate::context::{Context, class_named};
use crate::fault::fault_if;
use crate::part::{and_rules, join};
use jdf_lex::{JdfCode, JdfRefusal, Spot, fault_at};
use jdf_tree::{ArgTree, ClassTree, TargetTree, Word};
use plan_core::Target;
use ptg_base::Text;

/// The spot of a target: its first token.
pub fn first_spot(target: &TargetTree) -> Spot
    ensures { result ≡ first_spot target.now }
{
    match target {
        TargetTree::Task(flow, _, _) => flow.spot,
        TargetTree::Element(coll, _) => coll.spot,
        TargetTree::New(spot) => *spot,
        TargetTree::Null(spot) => *spot,
    }
}

/// The number of the first flow with this name in a class. It searches all of them, at most 8.
pub(crate) fn flow_named(class: &ClassTree, name: &Text) -> Option<usize>
    ensures number { result ≡ flow_named class.now name.now }
    ensures within { IfSome result (λ n. n < length class.now.flows) }
{
    class
        .flows
        .as_slice()
        .iter()
        .position(|flow| flow.name.text.bytes() == name.bytes())
}

// The number of the flow with this name in a class; refuses a name that no flow has.
fn flow_number(class: &ClassTree, word: &Word) -> Result<u8, JdfRefusal>
    requires { IsClassWithinLimits class.now }
    ensures { ReturnsChecked result (flow_named class.now word.now.text)
        (fault_if (is_none (flow_named class.now word.now.text)) word.now.spot NoSuchFlow) }
{
    match flow_named(class, &word.text) {
        None => Err(fault_at(word.spot, JdfCode::NoSuchFlow)),
        Some(number) => Ok(number as u8),
    }
}

// The numbers of a class and of one of its flows, whose names are followed by `count` arguments. Refuses a count other
// than that of the class's parameters.
fn task(context: &Context, flow: &Word, name: &Word, count: usize) -> Result<(u32, u8), JdfRefusal>
    requires { IsContext context.now }
    ensures { ReturnsChecked result
        (task_of (job_of context.now) flow.now name.now)
        (task_faults flow.now name.now count (class_of (job_of context.now) name.now.text)) }
{
    let Some(number) = class_named(context, &name.text) else {
        return Err(fault_at(name.spot, JdfCode::UnknownName));
    };
    let class = context.jdf.classes.get(number);
    let differs = class.params.len() != count;
    let known = and_rules(
        Ok(number as u32),
        fault_if(differs, name.spot, JdfCode::Arity),
    );
    join(known, flow_number(class, flow))
}

// Resolves a target in a task.
fn task_target(
    context: &Context,
    flow: &Word,
    name: &Word,
    args: &[ArgTree],
) -> Result<Target, JdfRefusal>
    requires { IsContext context.now }
    ensures { ReturnsChecked result
        (both (λ (x : ℕ × ℕ) y. Task x.0 x.1 y)
        (task_of (job_of context.now) flow.now name.now)
        (arguments_of (job_of context.now) context.now.seen.now args.now))
        (task_faults flow.now name.now (length args.now) (class_of (job_of context.now) name.now.text)
        ++ arguments_faults (job_of context.now) context.now.seen.now args.now) }
{
    let known = task(context, flow, name, args.len());
    match join(known, arguments(context, args)) {
        Err(refusal) => Err(refusal),
        Ok((known, args)) => Ok(Target::Task(known.0, known.1, args)),
    }
}

/// Resolves the names of a target.
pub(crate) fn named_target(context: &Context, target: &TargetTree) -> Result<Target, JdfRefusal>
    requires { IsContext context.now }
    ensures { ReturnsChecked result (target_of (job_of context.now) context.now.seen.now target.now)
        (named_faults (job_of context.now) context.now.seen.now target.now) }
{
    match target {
        TargetTree::Task(flow, name, args) => task_target(context, flow, name, args.as_slice()),
        TargetTree::Element(coll, args) => {
            let (coll, indices) = element(context, coll, args.as_slice())?;
            Ok(Target::Element(coll, indices))
        }
        TargetTree::New(_) => Ok(Target::New),
        TargetTree::Null(_) => Ok(Target::Null),
    }
}
