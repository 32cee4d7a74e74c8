//! Adds records of collections.

ghost use Rattle.std.specs.Prelude.{◌≡◌, ◌≤◌, ◌+◌, ◌*◌, replicate, None, Some, IfOk, IfSome, OnOk, IsTrue};
ghost use Rattle.ptg_base.specs.Limits.{most_elements, most_tiles};
ghost use Rattle.csv.specs.Records.{fields_of};
ghost use Rattle.coll_data.specs.Tiles.{tile_count};
ghost use Rattle.data_read.specs.Draft.{is_new, with_coll};
ghost use Rattle.data_read.specs.Growing.{draft_of, IsKeyed, ReturnsDraft};
ghost use Rattle.data_read.specs.Records.{columns, side, shape_of, asked_coll, coll_of, coll_record, collof_record};

use crate::field::{field, whole};
use crate::growing::{AskedColl, Growing, GrowingColl, Known};
use crate::names::is_new;
use crate::types::type_named;
use coll_data::{DEFAULT_TYPE, DataCode, tile_count};
use csv::ByteRecord;
use ptg_base::{OutOfMemory, Refusal, Seq, Text, Tile, is_name};
use std::alloc::Global;

// The most tiles of a collection.
const MOST_TILES: i64 = 65_536;

// The most elements of all tiles of the data.
const MOST_ELEMENTS: u64 = 16_777_216;

// The number of columns in the field of this number. `Some(None)`: the record ends before that field; `None`: it spells
// no number.
fn columns(fields: &ByteRecord, at: usize) -> Option<Option<i64>>
    ensures { result ≡ columns (fields_of fields.now) at }
{
    if at < fields.len() {
        let cols = whole(field(fields, at))?;
        Some(Some(cols))
    } else {
        Some(None)
    }
}

// The number, if it is from 1 to 65,536.
fn side(n: i64) -> Option<u32>
    ensures side { result ≡ side n }
    ensures at_most { IfSome result (λ n. n ≤ most_tiles) }
{
    if 1 <= n && n <= MOST_TILES {
        Some(n as u32)
    } else {
        None
    }
}

// The shape with this many rows and columns, if it has 1 to 65,536 tiles.
fn shape_of(rows: i64, cols: Option<i64>) -> Option<(u32, Option<u32>)>
    ensures shape { result ≡ shape_of rows cols }
    ensures at_most { IfSome result (λ (rows, cols). tile_count rows cols ≤ most_tiles) }
{
    let rows = side(rows)?;
    let Some(cols) = cols else {
        return Some((rows, None));
    };
    let cols = side(cols)?;
    if i64::from(rows) * i64::from(cols) > MOST_TILES {
        return None;
    }
    Some((rows, Some(cols)))
}

// The shape and the type that a record asks for. Its rows are in the field `at`.
fn asked_coll(
    all: &Growing,
    datatype: &[u8],
    fields: &ByteRecord,
    at: usize,
) -> Result<AskedColl, DataCode>
    requires { at ≤ 3 }
    ensures asked_coll { result ≡ asked_coll (draft_of all.now) datatype.now (fields_of fields.now) at }
    ensures tiles_at_most { IfOk result (λ size. tile_count size.shape.0 size.shape.1 ≤ most_tiles) }
    ensures room { IfOk result (λ size.
        all.now.elements + tile_count size.shape.0 size.shape.1 * size.elements ≤ most_elements) }
{
    let Some((datatype, elements)) = type_named(all, datatype) else {
        return Err(DataCode::UnknownType);
    };
    let Some(rows) = whole(field(fields, at)) else {
        return Err(DataCode::BadNumber);
    };
    let Some(cols) = columns(fields, at + 1) else {
        return Err(DataCode::BadNumber);
    };
    let Some(shape) = shape_of(rows, cols) else {
        return Err(DataCode::TooManyTiles);
    };
    let count = u64::from(tile_count(shape.0, shape.1));
    if all.elements + count * u64::from(elements) > MOST_ELEMENTS {
        return Err(DataCode::TooManyElements);
    }
    Ok(AskedColl {
        shape,
        datatype,
        elements,
    })
}

// A list of this many places without a tile.
fn no_tiles(alloc: Global, count: u32) -> Result<Seq<Option<Tile>>, OutOfMemory>
    ensures { IfOk result (λ tiles. tiles ≡ replicate count None) }
{
    let mut tiles = Seq::new(alloc);
    for turn in 0..count {
        tiles.push(None)?;
    }
    Ok(tiles)
}

// Adds a collection with this name, which must be new.
fn push_coll(
    alloc: Global,
    all: &mut Growing,
    name: Text,
    size: AskedColl,
) -> Result<(), OutOfMemory>
    requires keyed { IsKeyed all.old }
    requires fresh { IsTrue (is_new (draft_of all.old) name) }
    requires tiles_at_most { tile_count size.shape.0 size.shape.1 ≤ most_tiles }
    requires room { all.old.elements + tile_count size.shape.0 size.shape.1 * size.elements ≤ most_elements }
    ensures step { OnOk result
        (draft_of all.new ≡ with_coll (draft_of all.old) name size.shape size.datatype size.elements) }
    ensures keyed { OnOk result (IsKeyed all.new) }
{
    let (rows, cols) = size.shape;
    let count = tile_count(rows, cols);
    let tiles = no_tiles(alloc, count)?;
    let key = Text::of(alloc, name.bytes())?;
    all.names.add(key, Known::Collection(all.colls.len()))?;
    all.colls.push(GrowingColl {
        name,
        shape: size.shape,
        datatype: size.datatype,
        elements: size.elements,
        tiles,
    })?;
    all.elements += u64::from(count) * u64::from(size.elements);
    Ok(())
}

// Adds the collection of a record, with tiles of the type named `datatype`. Its own name is in the field `at`.
fn add_coll_of(
    alloc: Global,
    all: &mut Growing,
    datatype: &[u8],
    fields: &ByteRecord,
    at: usize,
) -> Result<(), Refusal<DataCode>>
    requires keyed { IsKeyed all.old }
    requires near { at ≤ 2 }
    ensures step { ReturnsDraft result (coll_of (draft_of all.old) datatype.now (fields_of fields.now) at)
        (draft_of all.new) }
    ensures keyed { OnOk result (IsKeyed all.new) }
{
    let bytes = field(fields, at);
    if !is_name(datatype) || !is_name(bytes) {
        return Err(Refusal::Fault(DataCode::BadName));
    }
    let name = Text::of(alloc, bytes)?;
    if !is_new(all, &name) {
        return Err(Refusal::Fault(DataCode::NameTwice));
    }
    match asked_coll(all, datatype, fields, at + 1) {
        Ok(size) => Ok(push_coll(alloc, all, name, size)?),
        Err(code) => Err(Refusal::Fault(code)),
    }
}

// Adds the collection of a `coll` record.
pub(crate) fn add_coll(
    alloc: Global,
    all: &mut Growing,
    fields: &ByteRecord,
) -> Result<(), Refusal<DataCode>>
    requires { IsKeyed all.old }
    ensures step { ReturnsDraft result (coll_record (draft_of all.old) (fields_of fields.now)) (draft_of all.new) }
    ensures keyed { OnOk result (IsKeyed all.new) }
{
    if fields.len() != 3 && fields.len() != 4 {
        return Err(Refusal::Fault(DataCode::FieldCount));
    }
    add_coll_of(alloc, all, DEFAULT_TYPE, fields, 1)
}

// Adds the collection of a `collof` record.
pub(crate) fn add_collof(
    alloc: Global,
    all: &mut Growing,
    fields: &ByteRecord,
) -> Result<(), Refusal<DataCode>>
    requires { IsKeyed all.old }
    ensures step { ReturnsDraft result (collof_record (draft_of all.old) (fields_of fields.now)) (draft_of all.new) }
    ensures keyed { OnOk result (IsKeyed all.new) }
{
    if fields.len() != 4 && fields.len() != 5 {
        return Err(Refusal::Fault(DataCode::FieldCount));
    }
    add_coll_of(alloc, all, field(fields, 1), fields, 2)
}
