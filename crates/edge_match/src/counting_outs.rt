//! Counting what tasks send.

ghost use Rattle.std.specs.Prelude.{◌≡◌, ◌+◌, ◌∷◌, [], List, length, map};
ghost use Rattle.std.specs.Bool.{OnTrue};
ghost use Rattle.ptg_base.specs.declared.edge.Edge.{Edge as EdgeValue};
ghost use Rattle.ptg_base.specs.declared.edge.Item.TheVariants as item;
ghost use Rattle.ptg_base.specs.declared.edge.WriteBack.{WriteBack as WriteBackValue};
ghost use Rattle.plan_core.specs.declared.shape.Shape.{Shape as ShapeValue};
ghost use Rattle.goal_count.specs.Counting.{IsCount};
ghost use Rattle.edge_match.specs.Tallies.{AreSent};

use crate::outs::Outs;
use plan_core::Plan;
use ptg_base::{MOST_EDGES, Place};

impl Outs {
    // How many items were counted.
    pub(crate) fn items(&self) -> u64
        ensures { result ≡ self.now.edges + self.now.writes }
    {
        self.edges + self.writes
    }

    // Counts this many edges. Returns false if they are too many.
    pub(crate) fn add_edges(&mut self, count: u64) -> bool
        ensures { (colls : List ShapeValue) (es : List EdgeValue) → IsCount count (length es)
            → OnTrue result (AreSent colls self.old self.new (map item.Edge es)) }
    {
        if count > MOST_EDGES - self.items() {
            return false;
        }
        self.edges += count;
        true
    }

    // Counts a write-back. Returns false if the limit is reached, or if its place does not exist or was added before.
    pub(crate) fn add_write(&mut self, plan: &Plan, place: Place) -> bool
        ensures { (w : WriteBackValue) → w.place ≡ place
            → OnTrue result (AreSent plan.now.colls self.old self.new (item.Write w ∷ [])) }
    {
        if self.items() >= MOST_EDGES || !plan.has_place(&place) {
            return false;
        }
        self.writes += 1;
        self.written.insert(place)
    }
}
