//! Counts of what tasks send.

ghost use Rattle.std.specs.Prelude.{◌+◌, ◌≤◌};
ghost use Rattle.ptg_base.specs.Limits.{most_edges};

use crate::place_set::PlaceSet;

/// How many edges out of tasks and how many write-backs were counted, and the places that are written to.
#[derive(Drop)]
pub(crate) struct Outs {
    pub(crate) edges: u64,
    pub(crate) writes: u64,
    pub(crate) written: PlaceSet,
    pub(crate) ghost items_at_most: { edges + writes ≤ most_edges },
}
