//! The data after what was written back.

ghost use Rattle.std.specs.Prelude.{◌≡◌};
ghost use Rattle.std.specs.List.{All};
ghost use Rattle.flow_meaning.specs.Final.{replaced_data};
ghost use Rattle.flow_meaning.specs.StateAnswer.{first_written};
ghost use Rattle.run_answer.specs.Written.{IsWritable, with_tiles};

use coll_data::Given;
use ptg_base::{Tile, WriteBack};

/// The data with the tile of each place replaced by the one that was written back to it, if any. If there are several
/// for a place, the first counts. No tile is copied.
pub fn with_written(given: Given, written: Vec<(WriteBack, Tile)>) -> Given
    requires { All (IsWritable given) written.items }
    ensures { result ≡ replaced_data (λ here. first_written here (with_tiles written.items)) given }
{
    let mut given = given;
    let mut written = written;
    while let Some((write, tile)) = written.pop() {
        given = given.with_tile_at(&write.place, tile);
    }
    given
}
