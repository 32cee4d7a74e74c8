//! Laws of data that fit a plan.

ghost use Rattle.std.specs.Prelude.{◌↔◌};
ghost use Rattle.ptg_base.specs.declared.place.Place.{Place};
ghost use Rattle.plan_core.specs.declared.plan.Plan.{Plan};
ghost use Rattle.plan_core.specs.Place as plan;
ghost use Rattle.coll_data.specs.Data.{Data};
ghost use Rattle.coll_data.specs.Tiles as tiles;
ghost use Rattle.plan_data.specs.Fit.{DataFit};

/// A law: if the data fit a plan, the places of the plan are those of the data.
pub fn places_of_the_plan_are_places_of_the_data()
    ensures { (P : Plan) (d : Data) (p : Place) → DataFit P d → plan.HasPlace P.colls p ↔ tiles.HasPlace d.colls p }
{}
