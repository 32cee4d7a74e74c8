//! Adds to the counts.

ghost use Rattle.std.specs.Prelude.{◌≡◌, ◌<◌, IsTrue};
ghost use Rattle.ptg_base.specs.declared.edge.Edge.{Edge as EdgeValue};
ghost use Rattle.ptg_base.specs.declared.edge.Item.{Item as ItemValue};
ghost use Rattle.plan_core.specs.declared.plan.Plan.{Plan as PlanValue};
ghost use Rattle.plan_core.specs.Place.{HasPlace};
ghost use Rattle.dep_iter.specs.Consistent.{is_data_edge};
ghost use Rattle.edge_match.specs.Counted.{Decides};
ghost use Rattle.edge_match.specs.Marks.{CountsIn, CountsItem, IsNewPlace};

use crate::counted::Counted;
use ptg_base::{MOST_EDGES, Place};

impl Counted {
    // Counts an edge into a task, which may carry a tile. Returns false if the limit is reached.
    pub(crate) fn add_in(&mut self, carries_tile: bool) -> bool
        ensures { (P : PlanValue) (e : EdgeValue) → is_data_edge P e ≡ carries_tile
            → Decides P self.old self.new result (CountsIn e) }
    {
        if self.ins >= MOST_EDGES {
            return false;
        }
        self.ins += 1;
        if carries_tile {
            self.data_edges += 1;
        }
        true
    }

    // Counts an item. Returns false if the limit is reached.
    pub(crate) fn add_item(&mut self) -> bool
        ensures counted { (P : PlanValue) (i : ItemValue) → Decides P self.old self.new result (CountsItem i) }
        ensures room { IsTrue result → self.new.writes < self.new.items }
    {
        if self.items >= MOST_EDGES {
            return false;
        }
        self.items += 1;
        true
    }

    // Adds a place that is written to, after its item was counted, and returns whether it is new.
    pub(crate) fn add_place(&mut self, place: Place) -> bool
        requires { self.old.writes < self.old.items }
        ensures { (P : PlanValue) → HasPlace P.colls place → Decides P self.old self.new result (IsNewPlace place) }
    {
        self.writes += 1;
        self.written.insert(place)
    }
}
