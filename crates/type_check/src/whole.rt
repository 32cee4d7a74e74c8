//! Resolves all names of a JDF with its data.

ghost use Rattle.std.specs.Prelude.{[], ◌∷◌, ◌++◌, List, Option, Some, IfOk};
ghost use Rattle.std.specs.List.{AllByRecursion};
ghost use Rattle.jdf_lex.specs.declared.fault.JdfFault.{JdfFault};
ghost use Rattle.jdf_tree.specs.TreeLimits.{IsClassWithinLimits};
ghost use Rattle.plan_core.specs.declared.class.ClassPlan.{ClassPlan};
ghost use Rattle.term_core.specs.declared.space.ClassSpace.{ClassSpace};
ghost use Rattle.type_rules.specs.Contexts.{IsContext, job_of};
ghost use Rattle.type_rules.specs.Returns.{ReturnsChecked, both};
ghost use Rattle.jdf_tree.specs.declared.expression.Word.{Word};
ghost use Rattle.jdf_tree.specs.declared.tree.ClassTree.{ClassTree};
ghost use Rattle.jdf_lex.specs.declared.fault.JdfCode.TheVariants.{NameTwice};
ghost use Rattle.type_rules.specs.Repeats.{repeats};
ghost use Rattle.type_check.specs.Check.{AreRead, ReturnsResolved};

use crate::class::{ClassResult, class_read};
use jdf_lex::{JdfCode, JdfRefusal};
use jdf_tree::{ClassTree, Word};
use plan_core::ClassPlan;
use ptg_base::{OutOfMemory, Seq};
use std::alloc::Global;
use term_core::ClassSpace;
use type_rules::{Context, and_rules, join, repeats};

/// Some classes and their spaces, in order, or their first fault.
pub(crate) type ClassesResult = Result<(Seq<ClassPlan>, Seq<ClassSpace>), JdfRefusal>;

// The results for some classes, with that of one more class added.
fn with_class(classes: ClassesResult, class: ClassResult) -> ClassesResult
    ensures { (p : Option (List ClassPlan × List ClassSpace)) (q : Option (ClassPlan × ClassSpace))
        (fs gs : List JdfFault)
        → ReturnsChecked {A = List ClassPlan × List ClassSpace} classes p fs
        → ReturnsChecked {A = ClassPlan × ClassSpace} class q gs
        → ReturnsChecked {A = List ClassPlan × List ClassSpace} result
        (both
        (λ (xs : List ClassPlan × List ClassSpace) (x : ClassPlan × ClassSpace).
        (xs.0 ++ x.0 ∷ [], xs.1 ++ x.1 ∷ []))
        p q)
        (fs ++ gs) }
{
    match join(classes, class) {
        Err(refusal) => Err(refusal),
        Ok((classes, class)) => {
            let (mut plans, mut spaces) = classes;
            plans.push(class.0)?;
            spaces.push(class.1)?;
            Ok((plans, spaces))
        }
    }
}

// Some classes with all names resolved, and their spaces.
fn read_classes(context: &Context, classes: &[ClassTree]) -> Result<ClassesResult, OutOfMemory>
    requires context { IsContext context.now }
    requires bounded { AllByRecursion IsClassWithinLimits classes.now }
    ensures { IfOk result (λ r. AreRead (job_of context.now) classes.now r) }
{
    let mut results = Ok((Seq::new(context.alloc), Seq::new(context.alloc)));
    for class in classes {
        let read = class_read(context, class)?;
        results = with_class(results, read);
    }
    Ok(results)
}

// Checks that no two globals have the same name, and no two classes.
fn names(alloc: Global, globals: &[Word], classes: &[ClassTree]) -> Result<(), JdfRefusal>
    ensures { ReturnsChecked result (Some tt)
        (repeats (λ (w : Word). w) NameTwice globals.now ++ repeats (λ (c : ClassTree). c.name) NameTwice classes.now) }
{
    and_rules(
        repeats(alloc, JdfCode::NameTwice, globals),
        repeats(alloc, JdfCode::NameTwice, classes),
    )
}

/// The classes of a JDF and their spaces, with all names resolved, or the first fault of the whole text.
pub(crate) fn resolved(context: &Context) -> ClassesResult
    requires { IsContext context.now }
    ensures { ReturnsResolved (job_of context.now) result }
{
    let globals = context.jdf.globals.as_slice();
    let classes = context.jdf.classes.as_slice();
    let read = read_classes(context, classes)?;
    and_rules(read, names(context.alloc, globals, classes))
}
