//! Finds the tiles of data that fit a plan.

ghost use Rattle.std.specs.Prelude.{◌≡◌, Some, IfSome, length, slice_get, slice_index};
ghost use Rattle.plan_core.specs.declared.shape.Shape.{Shape};
ghost use Rattle.plan_core.specs.Place.{HasPlace};
ghost use Rattle.coll_data.specs.Tiles.{tile_at};
ghost use Rattle.plan_data.specs.Fit.{DataFit};

use coll_data::Given;
use plan_core::Plan;
use ptg_base::{Place, Tile};

/// The tile that the data have at a place of the plan.
pub fn opening_tile<'a>(plan: &Plan, given: &'a Given, place: &Place) -> &'a Tile
    requires fit { DataFit plan.now given.now }
    requires exists { HasPlace plan.now.colls place.now }
    ensures tile { tile_at given.now.colls place.now ≡ Some result.now }
    ensures elements { IfSome (slice_get plan.now.colls place.now.coll) (λ (shape : Shape).
        length result.now ≡ slice_index plan.now.elems shape.datatype) }
{
    match given.tile(place) {
        Some(tile) => tile,
        None => unreachable!(),
    }
}
