//! The tiles that came to a task, in a place for each flow.
ghost use Rattle.std.specs.Prelude.{◌≡◌, ◌<◌, []};
ghost use Rattle.ptg_base.specs.Limits.{most_flows};
ghost use Rattle.dep_shard.specs.Arrivals.{with_tile, without_tile, tile_of, IsInFlowOrder};

use ptg_base::{MOST_FLOWS, Tile};
use std::marker::Model;

/// The tiles that came to a task by edges, in a place for each flow, from which the task takes them.
///
/// Contracts see them as a list in order of flow number, in which no flow is twice. A flow number is below 8.
#[derive(Drop)]
pub struct FlowTiles {
    tiles: [Option<Tile>; MOST_FLOWS],
}

impl Model for FlowTiles {
    ghost use Rattle.std.specs.Prelude.{List};
    ghost use Rattle.ptg_base.specs.Entry.{FlowTile};
    ghost use Rattle.dep_shard.specs.Arrivals.{tiles_by_flow};

    ghost Value = { List FlowTile };

    ghost view = { λ a. tiles_by_flow 0 a.tiles };
}

impl FlowTiles {
    /// No tiles.
    pub fn new() -> FlowTiles
        ensures { result ≡ [] }
    {
        FlowTiles {
            tiles: [None, None, None, None, None, None, None, None],
        }
    }

    /// Takes the tile of a flow out, if one came.
    pub fn take(&mut self, flow: u8) -> Option<Tile>
        requires { flow < most_flows }
        ensures tile { result ≡ tile_of self.old flow }
        ensures rest { self.new ≡ without_tile flow self.old }
    {
        self.tiles[flow as usize].take()
    }

    // Adds the tile of a flow. It replaces one that is there.
    pub(crate) fn put(&mut self, flow: u8, tile: Tile)
        requires { flow < most_flows }
        ensures tiles { self.new ≡ with_tile flow tile self.old }
        ensures order { IsInFlowOrder self.new }
    {
        self.tiles[flow as usize] = Some(tile);
    }
}
