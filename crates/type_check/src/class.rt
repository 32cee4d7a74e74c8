//! The classes of a JDF with their bodies.

ghost use Rattle.std.specs.Prelude.{◌≡◌, IfOk};
ghost use Rattle.jdf_tree.specs.TreeLimits.{IsClassWithinLimits};
ghost use Rattle.body_lang.specs.Environment.{environment_of};
ghost use Rattle.type_rules.specs.Contexts.{IsContext, job_of};
ghost use Rattle.type_rules.specs.Returns.{ReturnsChecked};
ghost use Rattle.plan_core.specs.declared.class.ClassPlan.{ClassPlan};
ghost use Rattle.term_core.specs.declared.space.ClassSpace.{ClassSpace};
ghost use Rattle.type_check.specs.Bodies.{ReadsAs};
ghost use Rattle.type_check.specs.Check.{IsClassRead};
ghost use Rattle.type_check.specs.Classes.{class_plan, class_faults};

use crate::head::head;
use crate::scope::scope_of;
use body_lang::{Scope, read_body};
use jdf_lex::{JdfFault, JdfRefusal};
use jdf_tree::ClassTree;
use plan_core::ClassPlan;
use ptg_base::{OutOfMemory, Seq, Text};
use std::alloc::Global;
use term_core::{Body, ClassSpace};
use type_rules::{Context, refused};

// The result of reading a body: the body and its trap words, or its first fault.
type BodyResult = Result<(Body, Seq<Text>), JdfFault>;

/// A class with all names resolved and its space, or its first fault.
pub(crate) type ClassResult = Result<(ClassPlan, ClassSpace), JdfRefusal>;

// Reads the body of a class.
fn body(alloc: Global, class: &ClassTree, scope: &Scope) -> Result<BodyResult, OutOfMemory>
    ensures { IfOk result (λ read. ReadsAs (environment_of scope.now) class.now read) }
{
    match read_body(alloc, class.body.as_slice(), class.finish, scope) {
        Ok(read) => Ok(Ok(read)),
        Err(JdfRefusal::Fault(fault)) => Ok(Err(fault)),
        Err(JdfRefusal::OutOfMemory) => Err(OutOfMemory),
    }
}

// A class with all names resolved, and its space. All of its definitions are in scope.
fn class(context: &Context, class: &ClassTree, body: BodyResult) -> ClassResult
    requires context { IsContext context.now }
    requires seen { context.now.seen.now ≡ class.now.defs }
    requires bounded { IsClassWithinLimits class.now }
    ensures { ReturnsChecked {A = ClassPlan × ClassSpace} result (class_plan (job_of context.now) class.now body)
        (class_faults (job_of context.now) class.now body) }
{
    let head = head(context, class);
    match body {
        Err(fault) => refused(head, fault.spot, fault.code),
        Ok((body, trap_words)) => match head {
            Err(refusal) => Err(refusal),
            Ok(head) => {
                let plan = ClassPlan {
                    name: Text::of(context.alloc, class.name.text.bytes())?,
                    affinity: head.affinity,
                    flows: head.flows,
                    priority: head.priority,
                    body,
                    trap_words,
                };
                Ok((plan, head.space))
            }
        },
    }
}

/// Reads a class: its body first, then everything outside of it. Returns the class with all names resolved, and its
/// space.
pub(crate) fn class_read(context: &Context, one: &ClassTree) -> Result<ClassResult, OutOfMemory>
    requires context { IsContext context.now }
    requires bounded { IsClassWithinLimits one.now }
    ensures { IfOk result (λ r. IsClassRead (job_of context.now) one.now r) }
{
    let scope = scope_of(context, one)?;
    let read = body(context.alloc, one, &scope)?;
    let here = Context {
        seen: one.defs.as_slice(),
        ..*context
    };
    Ok(class(&here, one, read))
}
