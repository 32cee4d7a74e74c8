//! What was counted so far.

ghost use Rattle.std.specs.Prelude.{◌≤◌};
ghost use Rattle.ptg_base.specs.Limits.{most_edges};

use crate::place_set::PlaceSet;

/// How many edges into tasks and items were counted, how many of those edges carry a tile, and which places are written
/// to.
#[derive(Drop)]
pub(crate) struct Counted {
    pub(crate) ins: u64,
    pub(crate) data_edges: u64,
    pub(crate) items: u64,
    pub(crate) writes: u64,
    pub(crate) written: PlaceSet,
    pub(crate) ghost ins_at_most: { ins ≤ most_edges },
    pub(crate) ghost data_at_most: { data_edges ≤ ins },
    pub(crate) ghost items_at_most: { items ≤ most_edges },
    pub(crate) ghost writes_at_most: { writes ≤ items },
}
