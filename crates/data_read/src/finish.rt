//! Makes the data from all records.

ghost use Rattle.std.specs.Prelude.{◌≡◌, map, pos, replicate, unwrap_or, IfOk, ℤ, Option, List};
ghost use Rattle.coll_data.specs.WellMade.{IsWellMade};
ghost use Rattle.data_read.specs.Draft.{finished, data_after};
ghost use Rattle.data_read.specs.Growing.{draft_of};

use crate::growing::{Growing, GrowingColl};
use coll_data::{Coll, Given};
use ptg_base::{OutOfMemory, Seq, Tile};
use std::alloc::Global;

// The tile of a record, or else zeros.
fn tile_or_zeros(alloc: Global, tile: Option<Tile>, elements: u32) -> Result<Tile, OutOfMemory>
    ensures { IfOk result (λ whole. whole ≡ unwrap_or tile (replicate elements (pos 0))) }
{
    match tile {
        Some(tile) => Ok(tile),
        None => Tile::zeros(alloc, elements),
    }
}

// The tiles of records, with zeros for the others.
fn whole_tiles(
    alloc: Global,
    tiles: Seq<Option<Tile>>,
    elements: u32,
) -> Result<Seq<Tile>, OutOfMemory>
    ensures { IfOk result (λ whole.
        whole ≡ map (λ (tile : Option (List ℤ)). unwrap_or tile (replicate elements (pos 0))) tiles) }
{
    let mut whole = Seq::new(alloc);
    for tile in tiles.into_vec() {
        whole.push(tile_or_zeros(alloc, tile, elements)?)?;
    }
    Ok(whole)
}

// A collection, with zeros for each tile that has no record.
fn finished(alloc: Global, coll: GrowingColl) -> Result<Coll, OutOfMemory>
    ensures { IfOk result (λ whole. whole ≡ finished coll) }
{
    let tiles = whole_tiles(alloc, coll.tiles, coll.elements)?;
    Ok(Coll {
        shape: coll.shape,
        name: coll.name,
        datatype: coll.datatype,
        tiles,
    })
}

// All collections, with zeros for each tile that has no record.
fn all_finished(alloc: Global, colls: Vec<GrowingColl>) -> Result<Seq<Coll>, OutOfMemory>
    ensures { IfOk result (λ whole. whole ≡ map finished colls.items) }
{
    let mut whole = Seq::new(alloc);
    for coll in colls {
        whole.push(finished(alloc, coll)?)?;
    }
    Ok(whole)
}

// The data after this many records.
pub(crate) fn finish(alloc: Global, all: Growing, records: u64) -> Result<Given, OutOfMemory>
    requires { IsWellMade (data_after records (draft_of all)) }
    ensures { IfOk result (λ given. given ≡ data_after records (draft_of all)) }
{
    let colls = all_finished(alloc, all.colls)?;
    Ok(Given::new(all.types, all.elems, all.ints, colls, records))
}
