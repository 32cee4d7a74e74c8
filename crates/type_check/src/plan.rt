//! Makes a plan from its classes and the shapes of the data.

ghost use Rattle.std.specs.Prelude.{◌≡◌, ◌∷◌, ℕ, List, map, IfOk};
ghost use Rattle.coll_data.specs.WellMade.{elements_by_type};
ghost use Rattle.plan_core.specs.WellMade.{IsWellMade};
ghost use Rattle.plan_data.specs.Fit.{shape_of, DataFit};

use coll_data::{Coll, Given};
use plan_core::{ClassPlan, Plan, Shape};
use ptg_base::{OutOfMemory, Seq, Text};
use std::alloc::Global;
use term_core::ClassSpace;

// The shapes of collections.
fn shapes(alloc: Global, colls: &[Coll]) -> Result<Seq<Shape>, OutOfMemory>
    ensures { IfOk result (λ shapes. shapes ≡ map shape_of colls.now) }
{
    let mut shapes = Seq::new(alloc);
    for coll in colls {
        let name = Text::of(alloc, coll.name.bytes())?;
        shapes.push(Shape {
            name,
            rows: coll.shape.0,
            cols: coll.shape.1,
            datatype: coll.datatype,
        })?;
    }
    Ok(shapes)
}

// The element counts of the types: `default` for DEFAULT, then those of `types`.
fn element_counts(
    alloc: Global,
    default: u32,
    types: &[(Text, u32)],
) -> Result<Seq<u32>, OutOfMemory>
    ensures { IfOk result (λ counts. counts ≡ default ∷ map (λ ((name, elements) : List ℕ × ℕ). elements) types.now) }
{
    let mut counts = Seq::new(alloc);
    counts.push(default)?;
    for named in types {
        counts.push(named.1)?;
    }
    Ok(counts)
}

// The element count of each type of the data, by the number of the type.
fn elements(alloc: Global, given: &Given) -> Result<Seq<u32>, OutOfMemory>
    ensures { IfOk result (λ counts. counts ≡ elements_by_type given.now) }
{
    element_counts(alloc, given.elements(0), given.types())
}

/// The plan of these classes with their spaces, for the data.
pub(crate) fn plan_of(
    alloc: Global,
    classes: Seq<ClassPlan>,
    spaces: Seq<ClassSpace>,
    given: &Given,
) -> Result<Plan, OutOfMemory>
    requires { IsWellMade classes spaces (map shape_of given.now.colls) (elements_by_type given.now) }
    ensures classes { IfOk result (λ plan. plan.classes ≡ classes) }
    ensures spaces { IfOk result (λ plan. plan.spaces ≡ spaces) }
    ensures fit { IfOk result (λ plan. DataFit plan given.now) }
{
    let colls = shapes(alloc, given.colls())?;
    let elems = elements(alloc, given)?;
    Ok(Plan::new(classes, spaces, colls, elems))
}
