//! Reserved tiles of each type, and nodes to hold them in entries.
ghost use Rattle.std.specs.Prelude.{◌≡◌, ◌+◌, ◌<◌, ◌≤◌, ℕ, [], Some, None, IsOk, IsSome, IfOk, IfSome, OnOk, OnErr, is_some, if◌then◌else◌, length, slice_index, vec_len};
ghost use Rattle.std.specs.Option.{option_copied, option_map};
ghost use Rattle.dep_shard.specs.Content.{IsTileOf};
ghost use Rattle.dep_shard.specs.Stock.{UsesTile};

use crate::arrivals::Arrivals;
use crate::tile_list::{SpareNodes, TileNode, TileWithNode};
use ptg_base::{MOST_IN_PLACE, OutOfMemory, Tile};
use std::alloc::Global;
use std::marker::Model;
use tile_pool::TilePool;

// A shard keeps tiles of one type for later copies up to this many numbers (1 MiB), besides those that were reserved.
// Further ones are freed.
const MOST_KEPT: u64 = 1 << 17;

// A shard keeps at most this many nodes that hold nothing. Further ones are freed.
const MOST_FREE_NODES: usize = 1 << 16;

// The reserved tiles of one type, and as many nodes. A write-back uses a tile alone.
#[derive(Drop)]
pub(crate) struct TypeStock {
    alloc: Global,
    pool: TilePool,
    nodes: SpareNodes,
}

impl Model for TypeStock {
    ghost use Rattle.std.specs.Prelude.{min, vec_len};
    ghost use Rattle.dep_shard.specs.Stock.{TypeTiles};

    ghost Value = { TypeTiles };

    ghost view = { λ s. record { elems = s.pool.elems; spare = min s.pool.spare (vec_len s.nodes) } };
}

impl TypeStock {
    // An empty stock of tiles of this many elements.
    fn new(alloc: Global, elems: u32) -> TypeStock
        ensures { result ≡ record { elems = elems; spare = 0 } }
    {
        TypeStock {
            alloc,
            pool: TilePool::new(alloc, elems),
            nodes: Vec::new(alloc),
        }
    }

    // Makes tiles and nodes until `n` more tiles can come.
    fn reserve(&mut self, n: u64) -> Result<(), OutOfMemory>
        ensures ok { OnOk result (n ≤ self.new.spare) }
        ensures more { self.old.spare ≤ self.new.spare }
        ensures elems { self.new.elems ≡ self.old.elems }
        ensures succeeds { n ≤ self.old.spare → IsOk result }
    {
        self.pool.reserve(n)?;
        make_nodes(&mut self.nodes, self.alloc, n as usize)
    }

    // A copy of a tile.
    fn copy_of(&mut self, tile: &Tile) -> Result<Tile, OutOfMemory>
        requires { length tile.now ≡ self.old.elems }
        ensures ok { IfOk result (λ copy. copy ≡ tile.now) }
        ensures elems { self.new.elems ≡ self.old.elems }
        ensures spare { self.old.spare ≤ self.new.spare + 1 }
        ensures err { OnErr result (self.old.spare ≤ self.new.spare) }
        ensures succeeds { 0 < self.old.spare → IsOk result }
    {
        copy_in(&mut self.pool, tile)
    }

    // A copy of a tile, and a node to hold it: a free one if there is any, else a reserved one, else a new one.
    fn copy_with_node(
        &mut self,
        tile: &Tile,
        free: &mut SpareNodes,
    ) -> Result<TileWithNode, OutOfMemory>
        requires { length tile.now ≡ self.old.elems }
        ensures ok { IfOk result (λ made. made.0 ≡ tile.now) }
        ensures elems { self.new.elems ≡ self.old.elems }
        ensures spare { self.old.spare ≤ self.new.spare + 1 }
        ensures err { OnErr result (self.old.spare ≤ self.new.spare) }
        ensures succeeds { 0 < self.old.spare → IsOk result }
    {
        let node = take_node(self.alloc, &mut self.nodes, free)?;
        let copy = copy_in(&mut self.pool, tile)?;
        Ok((copy, node))
    }
}

impl TypeStock {
    // Whether a tile that nothing needs any more can be kept here for a later copy.
    fn has_room_for(&self, tile: &Tile) -> bool {
        self.pool.has_room_for(tile)
    }

    // Keeps a tile for a later copy, if there is room for it.
    fn keep(&mut self, tile: Tile)
        ensures elems { self.new.elems ≡ self.old.elems }
        ensures more { self.old.spare ≤ self.new.spare }
    {
        if self.pool.has_room_for(&tile) {
            self.pool.give(tile);
        }
    }
}

// A copy of a tile: made in a spare or a kept one if there is any, else in new memory, which can be kept later.
fn copy_in(pool: &mut TilePool, tile: &Tile) -> Result<Tile, OutOfMemory>
    requires { length tile.now ≡ pool.old.elems }
    ensures ok { IfOk result (λ copy. copy ≡ tile.now) }
    ensures elems { pool.new.elems ≡ pool.old.elems }
    ensures spare { pool.old.spare ≤ pool.new.spare + 1 }
    ensures err { OnErr result (pool.old.spare ≤ pool.new.spare) }
    ensures succeeds { 0 < pool.old.spare → IsOk result }
{
    if pool.spare() == 0 {
        make_room_for(pool, tile);
    }
    pool.copy_of(tile)
}

// Makes room to keep one more tile that nothing needs any more, up to the bound. A tile that is held in place is not
// worth it. Refused memory is no failure: the tile is then freed.
fn make_room_for(pool: &mut TilePool, tile: &Tile)
    ensures elems { pool.new.elems ≡ pool.old.elems }
    ensures spare { pool.new.spare ≡ pool.old.spare }
{
    let n = tile.len();
    if n as usize > MOST_IN_PLACE && pool.room() < MOST_KEPT / u64::from(n) {
        let _made = pool.make_room(pool.room() + 1);
    }
}

// A node: a free one if there is any, else a reserved one, else a new one.
fn take_node(
    alloc: Global,
    nodes: &mut SpareNodes,
    free: &mut SpareNodes,
) -> Result<Box<TileNode>, OutOfMemory>
    ensures taken { vec_len nodes.old ≤ vec_len nodes.new + 1 }
    ensures succeeds { 0 < vec_len nodes.old → IsOk result }
{
    if let Some(node) = free.pop() {
        return Ok(node);
    }
    match nodes.pop() {
        Some(node) => Ok(node),
        None => Ok(Box::new(alloc, TileNode::new())?),
    }
}

// Makes spare nodes until there are `n`.
fn make_nodes(nodes: &mut SpareNodes, alloc: Global, n: usize) -> Result<(), OutOfMemory>
    ensures ok { OnOk result (n ≤ vec_len nodes.new) }
    ensures more { vec_len nodes.old ≤ vec_len nodes.new }
    ensures succeeds { n ≤ vec_len nodes.old → IsOk result }
{
    for _i in nodes.len()..n {
        nodes.push(Box::new(alloc, TileNode::new())?)?;
    }
    Ok(())
}

// The number of nodes that are kept for this many tiles of each type: one for each tile, up to the bound.
fn free_nodes_of(tiles: &[u64]) -> usize {
    let mut nodes = 0;
    for n in tiles {
        nodes = (*n as usize).saturating_add(nodes).min(MOST_FREE_NODES);
    }
    nodes
}

// The reserved tiles of all types, by type number, and the nodes that held tiles before and are free again.
#[derive(Drop)]
pub(crate) struct Stock {
    types: Vec<TypeStock>,
    free: SpareNodes,
}

impl Model for Stock {
    ghost use Rattle.std.specs.Prelude.{map};
    ghost use Rattle.dep_shard.specs.Stock.{TypeTiles, AllTiles};

    ghost Value = { AllTiles };

    ghost view = { λ s.
        record {
          elems = map (λ (t : TypeTiles). t.elems) s.types.items;
          spare = map (λ (t : TypeTiles). t.spare) s.types.items;
        } };
}

impl Stock {
    // A stock without reserved tiles, for types whose tiles have this many numbers.
    pub(crate) fn new(alloc: Global, elems: &[u32]) -> Result<Stock, OutOfMemory>
        ensures { IfOk result (λ stock. stock.elems ≡ elems.now) }
    {
        let mut types = Vec::new(alloc);
        for n in elems {
            types.push(TypeStock::new(alloc, *n))?;
        }
        Ok(Stock {
            types,
            free: Vec::new(alloc),
        })
    }

    // Makes tiles and nodes until this many more tiles of each type can come.
    pub(crate) fn reserve(&mut self, tiles: &[u64]) -> Result<(), OutOfMemory>
        requires { length tiles.now ≡ length self.old.elems }
        ensures ok { OnOk result ((k : ℕ) → slice_index tiles.now k ≤ slice_index self.new.spare k) }
        ensures elems { self.new.elems ≡ self.old.elems }
        ensures spare { UsesTile self.old.spare self.new.spare None }
        ensures succeeds { ((k : ℕ) → slice_index tiles.now k ≤ slice_index self.old.spare k) → IsOk result }
    {
        // A node that comes back then needs no memory. Refused memory is no failure: then the node is freed.
        let _room = self.free.reserve(free_nodes_of(tiles));
        for k in 0..tiles.len() {
            self.reserve_type(k, tiles[k])?;
        }
        Ok(())
    }

    // Makes tiles and nodes until `n` more tiles of this type can come.
    fn reserve_type(&mut self, k: usize, n: u64) -> Result<(), OutOfMemory>
        requires { k < length self.old.elems }
        ensures ok { OnOk result (n ≤ slice_index self.new.spare k) }
        ensures elems { self.new.elems ≡ self.old.elems }
        ensures spare { UsesTile self.old.spare self.new.spare None }
        ensures succeeds { n ≤ slice_index self.old.spare k → IsOk result }
    {
        let stock = &mut self.types[k];
        stock.reserve(n)
    }

    // A copy of a tile of this type.
    pub(crate) fn copy_of(&mut self, datatype: u32, tile: &Tile) -> Result<Tile, OutOfMemory>
        requires datatype { datatype < length self.old.elems }
        requires tile { length tile.now ≡ slice_index self.old.elems datatype }
        ensures ok { IfOk result (λ copy. copy ≡ tile.now) }
        ensures elems { self.new.elems ≡ self.old.elems }
        ensures spare { UsesTile self.old.spare self.new.spare (Some datatype) }
        ensures err { OnErr result (UsesTile self.old.spare self.new.spare None) }
        ensures succeeds { 0 < slice_index self.old.spare datatype → IsOk result }
    {
        let stock = &mut self.types[datatype as usize];
        stock.copy_of(tile)
    }

    // A copy of a tile of this type, and a node to hold it.
    pub(crate) fn copy_with_node(
        &mut self,
        datatype: u32,
        tile: &Tile,
    ) -> Result<TileWithNode, OutOfMemory>
        requires datatype { datatype < length self.old.elems }
        requires tile { length tile.now ≡ slice_index self.old.elems datatype }
        ensures ok { IfOk result (λ made. made.0 ≡ tile.now) }
        ensures elems { self.new.elems ≡ self.old.elems }
        ensures spare { UsesTile self.old.spare self.new.spare (Some datatype) }
        ensures err { OnErr result (UsesTile self.old.spare self.new.spare None) }
        ensures succeeds { 0 < slice_index self.old.spare datatype → IsOk result }
    {
        let stock = &mut self.types[datatype as usize];
        stock.copy_with_node(tile, &mut self.free)
    }

    // The first type among whose tiles there is room for this one.
    fn type_for(&self, tile: &Tile) -> Option<usize>
        ensures { IfSome result (λ k. k < length self.now.elems) }
    {
        for k in 0..self.types.len() {
            if self.types[k].has_room_for(tile) {
                return Some(k);
            }
        }
        None
    }

    // Keeps a tile that nothing needs any more for a later copy, if a type has room for it.
    pub(crate) fn keep(&mut self, tile: Tile)
        ensures elems { self.new.elems ≡ self.old.elems }
        ensures spare { UsesTile self.old.spare self.new.spare None }
    {
        if let Some(k) = self.type_for(&tile) {
            self.keep_at(k, tile);
        }
    }

    // Keeps all of these tiles and their nodes that there is room for.
    pub(crate) fn keep_all(&mut self, spent: &mut Arrivals)
        ensures elems { self.new.elems ≡ self.old.elems }
        ensures spare { UsesTile self.old.spare self.new.spare None }
        ensures none { spent.new ≡ [] }
    {
        spent.take_list().give_to(self);
    }

    // Keeps a node that holds nothing, up to the bound.
    pub(crate) fn keep_node(&mut self, node: Box<TileNode>)
        ensures { self.new ≡ self.old }
    {
        if self.free.len() < MOST_FREE_NODES {
            let _kept = self.free.push(node);
        }
    }

    // Keeps a spent tile of this type.
    fn keep_at(&mut self, k: usize, tile: Tile)
        requires { k < length self.old.elems }
        ensures elems { self.new.elems ≡ self.old.elems }
        ensures spare { UsesTile self.old.spare self.new.spare None }
    {
        let stock = &mut self.types[k];
        stock.keep(tile);
    }

    // A copy of a tile of this type and a node to hold it, if there is a tile.
    pub(crate) fn copy_if_any(
        &mut self,
        datatype: u32,
        tile: Option<&Tile>,
    ) -> Result<Option<TileWithNode>, OutOfMemory>
        requires { IfSome (option_copied tile) (λ t. IsTileOf self.old.elems datatype t) }
        ensures ok { IfOk result (λ made. option_map (λ m. m.0) made ≡ option_copied tile.entry) }
        ensures elems { self.new.elems ≡ self.old.elems }
        ensures spare { UsesTile self.old.spare self.new.spare (if is_some tile.entry then Some datatype else None) }
        ensures err { OnErr result (UsesTile self.old.spare self.new.spare None) }
        ensures succeeds { (IsSome tile.entry → 0 < slice_index self.old.spare datatype) → IsOk result }
    {
        match tile {
            Some(from) => Ok(Some(self.copy_with_node(datatype, from)?)),
            None => Ok(None),
        }
    }
}
