//! Collections of tiles.

ghost use Rattle.std.specs.Prelude.{◌≡◌, ◌≤◌, length, option_copied, option_and_then, slice_get};
ghost use Rattle.ptg_base.specs.Limits.{most_tiles};
ghost use Rattle.coll_data.specs.Tiles.{tile_count, tile_index};
ghost use Rattle.coll_data.specs.Replacing.{coll_with};

use crate::index::tile_index;
use ptg_base::{Seq, Text, Tile};

/// A collection of tiles in one or two dimensions.
pub struct Coll {
    /// The number of rows, and the number of columns if there are two dimensions.
    pub shape: (u32, Option<u32>),
    pub name: Text,
    /// The number of the type of its tiles; type 0 is DEFAULT.
    pub datatype: u32,
    /// Its tiles, row by row.
    pub tiles: Seq<Tile>,
}

impl Drop for Coll {
    fn drop(self) {
        let Coll {
            shape: _shape,
            name: _name,
            datatype: _datatype,
            tiles: _tiles,
        } = self;
    }
}

impl Coll {
    // The tile in this row and column, if there is one.
    pub(crate) fn tile(&self, i: i64, j: i64) -> Option<&Tile>
        requires { tile_count self.now.shape.0 self.now.shape.1 ≤ most_tiles }
        ensures { option_copied result
            ≡ option_and_then (slice_get self.now.tiles) (tile_index self.now.shape.0 self.now.shape.1 i j) }
    {
        let (rows, cols) = self.shape;
        let index = tile_index(rows, cols, i, j)?;
        self.tiles.as_slice().get(index)
    }

    // Replaces the tile in this row and column, if there is one.
    pub(crate) fn put(&mut self, i: i64, j: i64, tile: Tile)
        requires limit { tile_count self.old.shape.0 self.old.shape.1 ≤ most_tiles }
        requires all_tiles { length self.old.tiles ≡ tile_count self.old.shape.0 self.old.shape.1 }
        ensures { self.new ≡ coll_with self.old i j tile }
    {
        let (rows, cols) = self.shape;
        if let Some(index) = tile_index(rows, cols, i, j) {
            self.tiles.set(index, tile);
        }
    }
}
