//! The lines of tiles.

ghost use Rattle.std.specs.Prelude.{flat_map, All};
ghost use Rattle.coll_data.specs.WellMade.{IsWhole};
ghost use Rattle.report_text.specs.Puts.{Puts};
ghost use Rattle.report_text.specs.Places.{place_after};
ghost use Rattle.report_text.specs.Printed.{coll_lines, tile_line};

use crate::fields::{Field, put_line};
use crate::pieces::Pieces;
use coll_data::Coll;
use ptg_base::Tile;
use ptg_io::{Failed, Sink};

/// Puts the lines of the tiles of these collections.
pub fn put_colls<O: Sink>(sink: &mut O, out: &mut Pieces, colls: &[Coll]) -> Result<(), Failed>
    requires { All IsWhole colls.now }
    ensures { Puts O.bytes O.faults result sink.old out.old sink.new out.new (flat_map coll_lines colls.now) }
{
    for coll in colls {
        put_coll(sink, out, coll)?;
    }
    Ok(())
}

// Puts the lines of the tiles of a collection, in their order.
fn put_coll<O: Sink>(sink: &mut O, out: &mut Pieces, coll: &Coll) -> Result<(), Failed>
    requires { IsWhole coll.now }
    ensures { Puts O.bytes O.faults result sink.old out.old sink.new out.new (coll_lines coll.now) }
{
    let tiles = coll.tiles.as_slice();
    for (n, tile) in tiles.iter().enumerate() {
        put_tile(sink, out, coll, n as u64, tile)?;
    }
    Ok(())
}

// Puts the line of the tile that has `n` tiles of its collection before it.
fn put_tile<'a, O: Sink>(
    sink: &mut O,
    out: &mut Pieces,
    coll: &'a Coll,
    n: u64,
    tile: &'a Tile,
) -> Result<(), Failed>
    requires { IsWhole coll.now }
    ensures { Puts O.bytes O.faults result sink.old out.old sink.new out.new
        (tile_line coll.now.name (place_after coll.now.shape.1 n) tile.now) }
{
    let name = Field::Word(coll.name.bytes());
    let numbers = Field::Integers(tile.as_slice());
    match coll.shape.1 {
        None => put_line(sink, out, b"tile", &[name, Field::Number(n), numbers]),
        Some(cols) => {
            let row = Field::Number(n / u64::from(cols));
            let column = Field::Number(n % u64::from(cols));
            put_line(sink, out, b"tile", &[name, row, column, numbers])
        }
    }
}
