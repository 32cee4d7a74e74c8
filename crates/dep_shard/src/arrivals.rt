//! The tiles that came to a task by edges.
ghost use Rattle.std.specs.Prelude.{◌≡◌, []};
ghost use Rattle.dep_shard.specs.Arrivals.{in_flow_order, IsInFlowOrder};
ghost use Rattle.dep_shard.specs.Slots.{held};

use crate::flow_tiles::FlowTiles;
use crate::tile_list::TileList;
use ptg_base::{MOST_IN_PLACE, Tile};
use std::marker::Model;
use std::mem;

/// The tiles that came to a task by edges, each with the number of its flow. They stay in the nodes in which the shard
/// held them until `move_to`, so that handing them on moves nothing large.
///
/// Contracts see them as a list in order of flow number, in which no flow is twice. A flow number is below 8.
#[derive(Drop)]
pub struct Arrivals {
    tiles: TileList,
}

impl Model for Arrivals {
    ghost use Rattle.std.specs.Prelude.{List};
    ghost use Rattle.ptg_base.specs.Entry.{FlowTile};
    ghost use Rattle.dep_shard.specs.Arrivals.{in_flow_order};
    ghost use Rattle.dep_shard.specs.Slots.{held};

    ghost Value = { List FlowTile };

    ghost view = { λ a. in_flow_order (held a.tiles) };
}

impl Arrivals {
    /// No tiles.
    pub fn new() -> Arrivals
        ensures { result ≡ [] }
    {
        Arrivals::of(TileList::new())
    }

    // The tiles of a list.
    pub(crate) fn of(tiles: TileList) -> Arrivals
        ensures { result ≡ in_flow_order (held tiles) }
    {
        Arrivals { tiles }
    }

    /// Moves the tiles into `tiles`, where the task takes them. The nodes stay.
    pub fn move_to(&mut self, tiles: &mut FlowTiles)
        requires { tiles.old ≡ [] }
        ensures tiles { tiles.new ≡ self.old }
        ensures order { IsInFlowOrder tiles.new }
        ensures emptied { self.new ≡ [] }
    {
        let list = mem::replace(&mut self.tiles, TileList::new());
        self.tiles = list.move_to(tiles);
    }

    /// Takes a tile that nothing needs any more along in a node that holds nothing, so that the shard can use its
    /// memory again. A tile that finds no such node, or is held in place, is dropped. Contracts see no change.
    pub fn take_along(&mut self, spent: Tile)
        ensures { self.new ≡ self.old }
    {
        if spent.len() as usize > MOST_IN_PLACE {
            let list = mem::replace(&mut self.tiles, TileList::new());
            self.tiles = list.with_spent(spent);
        }
    }

    // The list of the tiles and their nodes. None stay.
    pub(crate) fn take_list(&mut self) -> TileList
        ensures { self.new ≡ [] }
    {
        mem::replace(&mut self.tiles, TileList::new())
    }
}
