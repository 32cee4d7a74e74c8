//! The type check: the plan of a JDF with its data, or its first fault.

ghost use Rattle.std.specs.Prelude.{IfOk};
ghost use Rattle.jdf_tree.specs.TreeLimits.{IsWithinLimits};
ghost use Rattle.plan_data.specs.Fit.{DataFit};
ghost use Rattle.type_rules.specs.Contexts.{AreGlobals};
ghost use Rattle.ptg_base.specs.Returns.{FindsOrRefuses};
ghost use Rattle.type_check.specs.Check.{IsFirstFault};
ghost use Rattle.type_check.specs.Plans.{IsPlan, ReturnsPlan};

use crate::plan::plan_of;
use crate::whole::resolved;
use coll_data::Given;
use jdf_lex::JdfRefusal;
use jdf_tree::Jdf;
use plan_core::Plan;
use std::alloc::Global;
use type_rules::{Context, Globals};

// The plan of a JDF with its data, or the first fault of the whole text.
fn answer(alloc: Global, jdf: &Jdf, given: &Given, globals: &Globals) -> Result<Plan, JdfRefusal>
    requires limits { IsWithinLimits jdf.now }
    requires globals { AreGlobals (record { jdf = jdf.now; given = given.now }) globals.now }
    ensures { ReturnsPlan (record { jdf = jdf.now; given = given.now }) result }
{
    given.data_are_well_made();
    let context = Context {
        alloc,
        jdf,
        given,
        globals,
        seen: &[],
    };
    match resolved(&context) {
        Err(refusal) => Err(refusal),
        Ok((classes, spaces)) => Ok(plan_of(alloc, classes, spaces, given)?),
    }
}

/// The type check: returns the plan of a JDF with its data, or the first fault of the whole text, by spot and then by
/// code. `globals` are the JDF's globals by name, as `globals_of` returns them.
pub fn check(alloc: Global, jdf: &Jdf, given: &Given, globals: &Globals) -> Result<Plan, JdfRefusal>
    requires limits { IsWithinLimits jdf.now }
    requires globals { AreGlobals (record { jdf = jdf.now; given = given.now }) globals.now }
    // The plan is returned if all names resolve and no rule is broken, else the first fault, unless memory runs out.
    ensures exact { FindsOrRefuses (IsPlan (record { jdf = jdf.now; given = given.now }))
        (IsFirstFault (record { jdf = jdf.now; given = given.now })) result }
    // The data fit the plan.
    ensures fit { IfOk result (λ plan. DataFit plan given.now) }
{
    answer(alloc, jdf, given, globals)
}
