//! Tiles.

ghost use Rattle.std.specs.Prelude.{◌≡◌, ◌<◌, length, pos, IfOk, replicate, slice_index_or, slice_set};

use crate::memory::OutOfMemory;
use std::alloc::Global;
use std::marker::Model;

/// The most elements that a tile holds in place. A longer tile takes memory.
pub const MOST_IN_PLACE: usize = 4;

/// A tile: fewer than 2^32 elements, which are signed 64-bit numbers. Its length never changes. With at most
/// `MOST_IN_PLACE` elements it takes no memory.
#[derive(Debug)]
pub struct Tile {
    cells: Cells,
}

// The elements of a tile: in place if they fit there, else in memory of their own.
#[derive(Debug, Drop)]
enum Cells {
    Small {
        len: u32,
        numbers: [i64; MOST_IN_PLACE],
    },
    Large(Vec<i64>),
}

impl Drop for Tile {
    fn drop(self) {
        let Tile { cells: _cells } = self;
    }
}

impl Model for Tile {
    ghost use Rattle.std.specs.Prelude.{List, ℤ};
    ghost use Rattle.ptg_base.specs.Cells.{numbers_of, AreWhereTheyFit};

    ghost Value = { List ℤ };

    ghost view = { λ t. numbers_of t.cells };

    ghost invariant = { λ t. AreWhereTheyFit t.cells };
}

impl Tile {
    /// A tile of `n` zeros.
    #[tactic(auto, using(crate::proofs::SmallTiles::take_zeros))]
    pub fn zeros(alloc: Global, n: u32) -> Result<Tile, OutOfMemory>
        ensures { IfOk result (λ tile. tile ≡ replicate n (pos 0)) }
    {
        if n as usize <= MOST_IN_PLACE {
            return Ok(Tile {
                cells: Cells::Small {
                    len: n,
                    numbers: [0; MOST_IN_PLACE],
                },
            });
        }
        Ok(Tile {
            cells: Cells::Large(vec![in alloc; 0i64; n as usize]?),
        })
    }

    /// A copy of the tile.
    pub fn copy(&self, alloc: Global) -> Result<Tile, OutOfMemory>
        ensures { IfOk result (λ tile. tile ≡ self.now) }
    {
        let cells = match &self.cells {
            Cells::Small { len, numbers } => Cells::Small {
                len: *len,
                numbers: *numbers,
            },
            Cells::Large(numbers) => Cells::Large(numbers.as_slice().to_vec(alloc)?),
        };
        Ok(Tile { cells })
    }

    /// Copies the elements of a tile of the same length. It takes no memory.
    pub fn copy_from(&mut self, from: &Tile)
        requires { length from.now ≡ length self.old }
        ensures { self.new ≡ from.now }
    {
        match (&mut self.cells, &from.cells) {
            (Cells::Small { numbers: to, .. }, Cells::Small { numbers: from, .. }) => *to = *from,
            (Cells::Large(to), Cells::Large(from)) => {
                to.as_mut_slice().copy_from_slice(from.as_slice())
            }
            _ => {}
        }
    }

    /// The number of elements.
    pub fn len(&self) -> u32
        ensures { result ≡ length self.now }
    {
        match &self.cells {
            Cells::Small { len, .. } => *len,
            Cells::Large(numbers) => numbers.len() as u32,
        }
    }

    /// The element at an index, counted from 0.
    pub fn get(&self, at: u32) -> i64
        requires { at < length self.now }
        ensures { result ≡ slice_index_or self.now at (pos 0) }
    {
        self.as_slice()[at as usize]
    }

    /// Sets the element at an index, counted from 0.
    #[tactic(auto, using(crate::proofs::SmallTiles::take_set))]
    pub fn set(&mut self, at: u32, v: i64)
        requires { at < length self.old }
        ensures { self.new ≡ slice_set self.old at v }
    {
        match &mut self.cells {
            Cells::Small { numbers, .. } => numbers[at as usize] = v,
            Cells::Large(numbers) => numbers[at as usize] = v,
        }
    }

    /// The elements as a slice.
    pub fn as_slice(&self) -> &[i64]
        ensures { result.now ≡ self.now }
    {
        match &self.cells {
            Cells::Small { len, numbers } => &numbers[..*len as usize],
            Cells::Large(numbers) => numbers.as_slice(),
        }
    }
}
