//! The parts of a class outside of its body.

ghost use Rattle.std.specs.Prelude.{◌≡◌};
ghost use Rattle.jdf_tree.specs.TreeLimits.{IsClassWithinLimits};
ghost use Rattle.type_rules.specs.Contexts.{IsContext, job_of};
ghost use Rattle.type_rules.specs.Returns.{ReturnsChecked};
ghost use Rattle.type_check.specs.Classes.{flows_of, flows_faults, head_of, head_faults};

use jdf_lex::{JdfCode, JdfRefusal};
use jdf_tree::{ClassTree, FlowTree};
use plan_core::{AffinityPlan, FlowPlan};
use ptg_base::Seq;
use term_core::{ClassSpace, Expr};
use type_rules::{Context, and_rules, element, flow, join, option_term, repeats, space, with_part};

/// The parts of a class outside of its body.
#[derive(Drop)]
pub(crate) struct ClassHead {
    pub(crate) space: ClassSpace,
    pub(crate) affinity: AffinityPlan,
    pub(crate) flows: Seq<FlowPlan>,
    pub(crate) priority: Option<Expr>,
}

// The flows of a class; no two may have the same name.
fn flows(context: &Context, flows: &[FlowTree]) -> Result<Seq<FlowPlan>, JdfRefusal>
    requires { IsContext context.now }
    ensures { ReturnsChecked result (flows_of (job_of context.now) context.now.seen.now flows.now)
        (flows_faults (job_of context.now) context.now.seen.now flows.now) }
{
    let mut parts = Ok(Seq::new(context.alloc));
    for each in flows {
        parts = with_part(parts, flow(context, each));
    }
    and_rules(parts, repeats(context.alloc, JdfCode::NameTwice, flows))
}

/// The parts of a class outside of its body, with their names resolved. All definitions of the class are in scope.
pub(crate) fn head(context: &Context, class: &ClassTree) -> Result<ClassHead, JdfRefusal>
    requires context { IsContext context.now }
    requires seen { context.now.seen.now ≡ class.now.defs }
    requires bounded { IsClassWithinLimits class.now }
    ensures { ReturnsChecked {A = ClassHead} result (head_of (job_of context.now) class.now)
        (head_faults (job_of context.now) class.now) }
{
    let place = join(
        space(context, class),
        element(context, &class.affinity, class.affinity_args.as_slice()),
    );
    let rest = join(
        flows(context, class.flows.as_slice()),
        option_term(context, &class.priority),
    );
    match join(place, rest) {
        Ok((place, rest)) => {
            let (coll, indices) = place.1;
            Ok(ClassHead {
                space: place.0,
                affinity: AffinityPlan { coll, indices },
                flows: rest.0,
                priority: rest.1,
            })
        }
        Err(refusal) => Err(refusal),
    }
}
