//! A pool of tiles of one length.
ghost use Rattle.std.specs.Prelude.{◌≡◌, ◌↔◌, ◌<◌, ◌≤◌, IsTrue, length, IsOk, IfOk, OnOk, OnErr, vec_len, vec_capacity};
ghost use Rattle.tile_pool.specs.Pool.{Pool, IsTakenFrom, HaveLength};

use ptg_base::{OutOfMemory, Tile};
use std::alloc::Global;
use std::marker::Model;

/// A pool of tiles of one length: those that can be taken, and room for those that can be given back.
#[derive(Drop)]
pub struct TilePool {
    alloc: Global,
    elems: u32,
    room: usize,
    tiles: Vec<Tile>,
}

impl Model for TilePool {
    ghost use Rattle.std.specs.Prelude.{◌+◌, ◌≤◌, vec_len, vec_capacity};
    ghost use Rattle.tile_pool.specs.Pool.{Pool, HaveLength};

    ghost Value = { Pool };

    ghost view = { λ p. record { elems = p.elems; spare = vec_len p.tiles; room = p.room } };

    ghost invariant = { λ p. (vec_len p.tiles + p.room ≤ vec_capacity p.tiles) × HaveLength p.elems p.tiles.items };
}

impl TilePool {
    /// A pool of tiles of `elems` numbers, with none to take and no room. It takes no memory.
    pub fn new(alloc: Global, elems: u32) -> TilePool
        ensures { result ≡ record { elems = elems; spare = 0; room = 0 } }
    {
        TilePool {
            alloc,
            elems,
            room: 0,
            tiles: Vec::new(alloc),
        }
    }

    /// Makes tiles until at least `n` can be taken. An `Err` changes nothing.
    pub fn reserve(&mut self, n: u64) -> Result<(), OutOfMemory>
        ensures ok { OnOk result (n ≤ self.new.spare) }
        ensures more { self.old.spare ≤ self.new.spare }
        ensures room { self.new.room ≡ self.old.room }
        ensures elems { self.new.elems ≡ self.old.elems }
        ensures err { OnErr result (self.new ≡ self.old) }
        ensures succeeds { n ≤ self.old.spare → IsOk result }
    {
        let wanted = n as usize;
        if wanted <= self.tiles.len() {
            return Ok(());
        }
        match wanted.checked_add(self.room) {
            Some(places) => self.tiles.reserve(places)?,
            None => return Err(OutOfMemory),
        }
        fill(&mut self.tiles, self.alloc, self.elems, wanted)
    }

    /// Takes memory until at least `n` tiles can be given back. An `Err` changes nothing.
    pub fn make_room(&mut self, n: u64) -> Result<(), OutOfMemory>
        ensures ok { OnOk result (n ≤ self.new.room) }
        ensures more { self.old.room ≤ self.new.room }
        ensures spare { self.new.spare ≡ self.old.spare }
        ensures elems { self.new.elems ≡ self.old.elems }
        ensures err { OnErr result (self.new ≡ self.old) }
        ensures succeeds { n ≤ self.old.room → IsOk result }
    {
        let wanted = n as usize;
        if wanted > self.room {
            self.tiles.reserve(wanted)?;
            self.room = wanted;
        }
        Ok(())
    }

    /// Takes a tile. Its numbers may be any.
    pub fn take(&mut self) -> Tile
        requires { 0 < self.old.spare }
        ensures tile { length result ≡ self.old.elems }
        ensures taken { IsTakenFrom self.old self.new }
    {
        self.room += 1;
        self.tiles.pop().unwrap()
    }

    /// Gives a tile back.
    pub fn give(&mut self, tile: Tile)
        requires room { 0 < self.old.room }
        requires tile { length tile ≡ self.old.elems }
        ensures { IsTakenFrom self.new self.old }
    {
        self.room -= 1;
        self.tiles.push(tile).unwrap();
    }

    /// Whether a tile can be given back: it is as long as those of the pool, and there is room for it.
    pub fn has_room_for(&self, tile: &Tile) -> bool
        ensures { IsTrue result ↔ ((0 < self.now.room) × (length tile.now ≡ self.now.elems)) }
    {
        self.room > 0 && tile.len() == self.elems
    }

    /// A copy of a tile: made in one taken from the pool if there is one, and otherwise in new memory. An `Err` changes
    /// nothing.
    pub fn copy_of(&mut self, from: &Tile) -> Result<Tile, OutOfMemory>
        requires { length from.now ≡ self.old.elems }
        ensures ok { IfOk result (λ tile. tile ≡ from.now) }
        ensures taken { 0 < self.old.spare → IsTakenFrom self.old self.new }
        ensures empty { self.old.spare ≡ 0 → self.new ≡ self.old }
        ensures succeeds { 0 < self.old.spare → IsOk result }
    {
        if self.spare() == 0 {
            return from.copy(self.alloc);
        }
        let mut tile = self.take();
        tile.copy_from(from);
        Ok(tile)
    }

    /// How many tiles can be taken.
    pub fn spare(&self) -> u64
        ensures { result ≡ self.now.spare }
    {
        self.tiles.len() as u64
    }

    /// How many tiles can be given back.
    pub fn room(&self) -> u64
        ensures { result ≡ self.now.room }
    {
        self.room as u64
    }
}

// Makes tiles until there are `n`. If memory runs out, it drops those that it made.
fn fill(tiles: &mut Vec<Tile>, alloc: Global, elems: u32, n: usize) -> Result<(), OutOfMemory>
    requires fits { n ≤ vec_capacity tiles.old }
    requires fewer { vec_len tiles.old ≤ n }
    requires tiles { HaveLength elems tiles.old.items }
    ensures ok { OnOk result (vec_len tiles.new ≡ n) }
    ensures err { OnErr result (vec_len tiles.new ≡ vec_len tiles.old) }
    ensures capacity { vec_capacity tiles.old ≤ vec_capacity tiles.new }
    ensures tiles { HaveLength elems tiles.new.items }
{
    let had = tiles.len();
    for _i in had..n {
        match Tile::zeros(alloc, elems) {
            Ok(tile) => tiles.push(tile).unwrap(),
            Err(e) => {
                tiles.truncate(had);
                return Err(e);
            }
        }
    }
    Ok(())
}
