//! Counts of the edges into tasks.

ghost use Rattle.std.specs.Prelude.{◌≡◌, ◌≤◌, ◌+◌, if◌then◌else◌};
ghost use Rattle.std.specs.Bool.{OnTrue};
ghost use Rattle.ptg_base.specs.Limits.{most_edges};

use ptg_base::MOST_EDGES;

/// How many edges into tasks were counted, and how many of them carry a tile.
#[derive(Drop)]
pub(crate) struct Ins {
    pub(crate) edges: u64,
    pub(crate) data_edges: u64,
    pub(crate) ghost edges_at_most: { edges ≤ most_edges },
    pub(crate) ghost data_at_most: { data_edges ≤ edges },
}

impl Ins {
    // Counts an edge, which may carry a tile. Returns false if the limit is reached.
    pub(crate) fn add(&mut self, carries_tile: bool) -> bool
        ensures edges { OnTrue result (self.new.edges ≡ self.old.edges + 1) }
        ensures data_edges { OnTrue result
            (self.new.data_edges ≡ (if carries_tile then self.old.data_edges + 1 else self.old.data_edges)) }
    {
        if self.edges >= MOST_EDGES {
            return false;
        }
        self.edges += 1;
        if carries_tile {
            self.data_edges += 1;
        }
        true
    }
}
