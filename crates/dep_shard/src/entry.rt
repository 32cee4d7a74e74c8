//! What a shard has of a task that is not claimed.
ghost use Rattle.std.specs.Prelude.{◌≡◌, ◌<◌};
ghost use Rattle.std.specs.Option.{option_map};
ghost use Rattle.ptg_base.specs.Limits.{most_flows};
ghost use Rattle.dep_shard.specs.Content.{fresh, with_arrival, IsWaiting};

use crate::arrivals::Arrivals;
use crate::tile_list::{TileList, TileWithNode};
use std::marker::Model;
use std::mem;

/// What a shard has of a task that is not claimed: how many edges the task waits for in all, how many have come, its
/// priority, and the tiles that have come.
#[derive(Drop)]
pub struct Entry {
    goal: u32,
    arrived: u32,
    priority: i64,
    tiles: TileList,
}

impl Model for Entry {
    ghost use Rattle.std.specs.Prelude.{◌<◌, ◌^◌};
    ghost use Rattle.ptg_base.specs.Entry.{Entry as EntryContent};
    ghost use Rattle.dep_shard.specs.Arrivals.{in_flow_order};
    ghost use Rattle.dep_shard.specs.Slots.{held};

    ghost Value = { EntryContent };

    ghost view = { λ e.
        record { goal = e.goal; arrived = e.arrived; priority = e.priority; tiles = in_flow_order (held e.tiles) } };

    ghost invariant = { λ e. e.goal < 2 ^ 32 };
}

impl Entry {
    // The entry of a task to which nothing has come.
    pub(crate) fn new(goal: u32, priority: i64) -> Entry
        ensures { result ≡ fresh goal priority }
    {
        Entry {
            goal,
            arrived: 0,
            priority,
            tiles: TileList::new(),
        }
    }

    // Notes that an edge into this flow has come, with this tile.
    pub(crate) fn add(&mut self, flow: u8, tile: Option<TileWithNode>)
        requires flow { flow < most_flows }
        requires waits { IsWaiting self.old }
        ensures { self.new ≡ with_arrival self.old flow (option_map (λ t. t.0) tile) }
    {
        self.arrived += 1;
        if let Some((tile, node)) = tile {
            let tiles = mem::replace(&mut self.tiles, TileList::new());
            self.tiles = tiles.with(node, flow, tile);
        }
    }

    // The tiles that have come, in their nodes.
    pub(crate) fn into_arrivals(self) -> Arrivals
        ensures { result ≡ self.tiles }
    {
        Arrivals::of(self.tiles)
    }

    /// How many edges the task waits for in all.
    pub fn goal(&self) -> u32
        ensures { result ≡ self.now.goal }
    {
        self.goal
    }

    /// How many edges have come.
    pub fn arrived(&self) -> u32
        ensures { result ≡ self.now.arrived }
    {
        self.arrived
    }

    /// The priority of the task.
    pub fn priority(&self) -> i64
        ensures { result ≡ self.now.priority }
    {
        self.priority
    }
}
