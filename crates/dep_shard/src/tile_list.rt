//! The tiles of an entry, in nodes that are reserved with the tiles.
ghost use Rattle.std.specs.Prelude.{◌≡◌, ◌<◌, [], ◌∷◌, None, Some};
ghost use Rattle.ptg_base.specs.Limits.{most_flows};
ghost use Rattle.dep_shard.specs.Arrivals.{in_flow_order, IsInFlowOrder};
ghost use Rattle.dep_shard.specs.Stock.{UsesTile};
ghost use Rattle.dep_shard.specs.Slots.{held};

use crate::flow_tiles::FlowTiles;
use crate::stock::Stock;
use ptg_base::Tile;
use std::marker::Model;
use std::mem;

// The tiles that came to a task so far, each with its flow, the latest first. An entry to which no tile came has no
// node, so that it is small. The nodes go with the tiles to the worker that claims the task, so that a claim moves only
// the list's first pointer, and come back when the task ends.
#[cycle(tile_list)]
#[derive(Drop)]
pub(crate) struct TileList {
    first: First,
}

// The first node of a list, if it has one.
#[cycle(tile_list)]
#[derive(Drop)]
enum First {
    End,
    More(Box<TileNode>),
}

// A node and the nodes after it. It holds nothing, a tile that came to a flow, or a tile that nothing needs any more.
#[cycle(tile_list)]
#[derive(Drop)]
pub(crate) enum TileNode {
    Empty(TileList),
    Held(u8, Tile, TileList),
    Spent(Tile, TileList),
}

// Nodes that hold nothing.
pub(crate) type SpareNodes = Vec<Box<TileNode>>;

// A tile, with a node to hold it.
pub(crate) type TileWithNode = (Tile, Box<TileNode>);

impl Model for TileList {
    ghost use Rattle.std.specs.Prelude.{List, length};
    ghost use Rattle.std.proofs.Common.{arith, length-append};
    ghost use Rattle.dep_shard.specs.Slots.{Slot};

    ghost Value = { List Slot };

    ghost use Rattle.dep_shard.specs.TileList.{slots_of, BeginsWithSmallFlow};

    ghost view = { λ l. slots_of l.first };

    ghost invariant = { λ l. BeginsWithSmallFlow l.first };

    ghost size = { length };

    ghost size_decreases = { λ l h. Prim.grind (arith, length-append) };
}

impl TileNode {
    // A node that holds nothing, with none after it.
    pub(crate) fn new() -> TileNode {
        TileNode::Empty(TileList::new())
    }
}

impl TileList {
    // A list without nodes.
    pub(crate) fn new() -> TileList
        ensures { result ≡ [] }
    {
        TileList { first: First::End }
    }

    // The list with one more tile, which the node holds from now on.
    pub(crate) fn with(self, mut node: Box<TileNode>, flow: u8, tile: Tile) -> TileList
        requires { flow < most_flows }
        ensures { result ≡ Some (flow, tile) ∷ self }
    {
        *node = TileNode::Held(flow, tile, self);
        TileList {
            first: First::More(node),
        }
    }

    // Moves the tiles into `tiles`, and returns the list of their nodes.
    pub(crate) fn move_to(self, tiles: &mut FlowTiles) -> TileList
        requires { tiles.old ≡ [] }
        ensures tiles { tiles.new ≡ in_flow_order (held self) }
        ensures order { IsInFlowOrder tiles.new }
        ensures emptied { held result ≡ [] }
    {
        match self.first {
            First::End => TileList::new(),
            First::More(mut node) => {
                let rest = match mem::replace(&mut *node, TileNode::new()) {
                    TileNode::Empty(rest) => rest.move_to(tiles),
                    TileNode::Spent(_spent, rest) => rest.move_to(tiles),
                    TileNode::Held(flow, tile, rest) => {
                        let emptied = rest.move_to(tiles);
                        tiles.put(flow, tile);
                        emptied
                    }
                };
                *node = TileNode::Empty(rest);
                TileList {
                    first: First::More(node),
                }
            }
        }
    }

    // The list with a tile that nothing needs any more, in the first node that holds nothing. If there is none, the
    // tile is dropped.
    pub(crate) fn with_spent(self, tile: Tile) -> TileList
        ensures { held result ≡ held self }
    {
        match self.first {
            First::End => TileList::new(),
            First::More(mut node) => {
                *node = match mem::replace(&mut *node, TileNode::new()) {
                    TileNode::Empty(rest) => TileNode::Spent(tile, rest),
                    TileNode::Held(flow, held, rest) => TileNode::Held(
                        flow,
                        held,
                        rest.with_spent(tile),
                    ),
                    TileNode::Spent(kept, rest) => TileNode::Spent(kept, rest.with_spent(tile)),
                };
                TileList {
                    first: First::More(node),
                }
            }
        }
    }

    // Gives all tiles and all nodes back to a stock, which keeps those that it has room for.
    pub(crate) fn give_to(self, stock: &mut Stock)
        ensures elems { stock.new.elems ≡ stock.old.elems }
        ensures spare { UsesTile stock.old.spare stock.new.spare None }
    {
        match self.first {
            First::End => {}
            First::More(mut node) => {
                let content = mem::replace(&mut *node, TileNode::new());
                stock.keep_node(node);
                match content {
                    TileNode::Empty(rest) => rest.give_to(stock),
                    TileNode::Held(_flow, tile, rest) => {
                        stock.keep(tile);
                        rest.give_to(stock);
                    }
                    TileNode::Spent(tile, rest) => {
                        stock.keep(tile);
                        rest.give_to(stock);
                    }
                }
            }
        }
    }
}
