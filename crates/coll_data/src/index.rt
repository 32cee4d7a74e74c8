//! Finds where the tiles of a collection are stored.

ghost use Rattle.std.specs.Prelude.{◌≡◌, ◌≤◌};
ghost use Rattle.ptg_base.specs.Limits.{most_tiles};
ghost use Rattle.coll_data.specs.Tiles.{tile_count, tile_index};

use ptg_base::index_in;

/// The number of tiles of a collection, from its numbers of rows and columns. In one dimension there are no columns.
pub fn tile_count(rows: u32, cols: Option<u32>) -> u32
    requires { tile_count rows cols ≤ most_tiles }
    ensures { result ≡ tile_count rows cols }
{
    match cols {
        None => rows,
        Some(cols) => rows * cols,
    }
}

/// The index of the tile in this row and column, if there is one; tiles are listed row by row.
pub fn tile_index(rows: u32, cols: Option<u32>, i: i64, j: i64) -> Option<usize>
    ensures { result ≡ tile_index rows cols i j }
{
    match cols {
        None => {
            let _column = index_in(1, j)?;
            let row = index_in(rows, i)?;
            Some(row as usize)
        }
        Some(cols) => {
            let column = index_in(cols, j)?;
            let row = index_in(rows, i)?;
            Some(row as usize * cols as usize + column as usize)
        }
    }
}
