//! Adds records of tiles.

ghost use Rattle.std.specs.Prelude.{◌≡◌, ◌≤◌, ◌<◌, ◌-◌, length, drop, option_map, IfOk, OnOk};
ghost use Rattle.csv.specs.Records.{fields_of};
ghost use Rattle.data_read.specs.Draft.{opened};
ghost use Rattle.data_read.specs.Growing.{draft_of, IsKeyed, ReturnsDraft};
ghost use Rattle.ptg_base.specs.Returns.{Returns};
ghost use Rattle.data_read.specs.Records.{first_value, column, numbers, free_index, new_tile, tile_record};

use crate::field::{field, whole};
use crate::growing::{Growing, GrowingColl};
use crate::names::coll_index;
use coll_data::{DataCode, tile_index};
use csv::ByteRecord;
use ptg_base::{OutOfMemory, Refusal, Text, Tile, is_name};
use std::alloc::Global;

// The number of the field that has the first value of a tile.
fn first_value(cols: Option<u32>) -> usize
    ensures { result ≡ first_value cols }
{
    match cols {
        None => 3,
        Some(_) => 4,
    }
}

// The column of a tile; 0 in a collection of one dimension.
fn column(cols: Option<u32>, fields: &ByteRecord) -> Option<i64>
    ensures { result ≡ column cols (fields_of fields.now) }
{
    match cols {
        None => Some(0),
        Some(_) => whole(field(fields, 3)),
    }
}

// The tile with the values in the fields from `first` on, if each of them spells a number.
fn opened_tile(
    alloc: Global,
    elements: u32,
    fields: &ByteRecord,
    first: usize,
) -> Result<Option<Tile>, OutOfMemory>
    requires at_most { length (fields_of fields.now) - first ≤ elements }
    requires within { first ≤ length (fields_of fields.now) }
    ensures { IfOk result (λ tile. tile ≡ option_map (opened elements) (numbers (drop first (fields_of fields.now)))) }
{
    let count = fields.len() - first;
    let mut tile = Tile::zeros(alloc, elements)?;
    for k in 0..count {
        let Some(value) = whole(field(fields, first + k)) else {
            return Ok(None);
        };
        tile.set(k as u32, value);
    }
    Ok(Some(tile))
}

// The index of the tile in row i and column j, if no earlier record has that tile.
#[tactic(auto, using(std::proofs::lemmas::Option::slice_get_past, std::proofs::lemmas::Option::slice_get_read))]
fn free_index(coll: &GrowingColl, i: i64, j: i64) -> Result<usize, DataCode>
    ensures index { result ≡ free_index coll.now i j }
    ensures within { IfOk result (λ index. index < length coll.now.tiles) }
{
    let Some(index) = tile_index(coll.shape.0, coll.shape.1, i, j) else {
        return Err(DataCode::BadIndex);
    };
    if index >= coll.tiles.len() {
        return Err(DataCode::BadIndex);
    }
    if coll.tiles.get(index).is_some() {
        return Err(DataCode::TileTwice);
    }
    Ok(index)
}

// The tile of a record, with its index in this collection, if no earlier record has that tile.
fn new_tile(
    alloc: Global,
    coll: &GrowingColl,
    fields: &ByteRecord,
) -> Result<(usize, Tile), Refusal<DataCode>>
    ensures tile { Returns (λ tile. tile) result (new_tile (fields_of fields.now) coll.now) }
    ensures within { IfOk result (λ tile. tile.0 < length coll.now.tiles) }
{
    let cols = coll.shape.1;
    let first = first_value(cols);
    if fields.len() <= first || fields.len() - first > coll.elements as usize {
        return Err(Refusal::Fault(DataCode::TileCount));
    }
    let Some(i) = whole(field(fields, 2)) else {
        return Err(Refusal::Fault(DataCode::BadNumber));
    };
    let Some(j) = column(cols, fields) else {
        return Err(Refusal::Fault(DataCode::BadNumber));
    };
    let Some(tile) = opened_tile(alloc, coll.elements, fields, first)? else {
        return Err(Refusal::Fault(DataCode::BadNumber));
    };
    match free_index(coll, i, j) {
        Ok(index) => Ok((index, tile)),
        Err(code) => Err(Refusal::Fault(code)),
    }
}

// Adds the tile of a `tile` record.
pub(crate) fn add_tile(
    alloc: Global,
    all: &mut Growing,
    fields: &ByteRecord,
) -> Result<(), Refusal<DataCode>>
    requires { IsKeyed all.old }
    ensures step { ReturnsDraft result (tile_record (draft_of all.old) (fields_of fields.now)) (draft_of all.new) }
    ensures keyed { OnOk result (IsKeyed all.new) }
{
    if fields.len() < 4 {
        return Err(Refusal::Fault(DataCode::FieldCount));
    }
    let bytes = field(fields, 1);
    if !is_name(bytes) {
        return Err(Refusal::Fault(DataCode::BadName));
    }
    let name = Text::of(alloc, bytes)?;
    let Some(at) = coll_index(all, &name) else {
        return Err(Refusal::Fault(DataCode::UnknownColl));
    };
    let (index, tile) = new_tile(alloc, &all.colls[at], fields)?;
    let coll = &mut all.colls[at];
    coll.tiles.set(index, Some(tile));
    Ok(())
}
