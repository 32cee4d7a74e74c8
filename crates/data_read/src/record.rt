//! Adds one record.

ghost use Rattle.std.specs.Prelude.{◌≡◌, Ok, Err, OnOk};
ghost use Rattle.std.specs.Result.{MatchResult};
ghost use Rattle.csv.specs.Records.{fields_of};
ghost use Rattle.data_read.specs.Draft.{begun};
ghost use Rattle.data_read.specs.Growing.{draft_of, IsKeyed, ReturnsDraft};
ghost use Rattle.data_read.specs.Records.{first_record, later_record};

use crate::colls::{add_coll, add_collof};
use crate::field::{element_count, field};
use crate::growing::Growing;
use crate::ints::add_int;
use crate::tiles::add_tile;
use crate::types::add_type;
use coll_data::DataCode;
use csv::ByteRecord;
use name_table::NameTable;
use ptg_base::{Refusal, Seq};
use std::alloc::Global;

// The number of elements of DEFAULT, which the first record gives.
fn first_record(fields: &ByteRecord) -> Result<u32, DataCode>
    ensures { result ≡ first_record (fields_of fields.now) }
{
    if field(fields, 0) != b"elems".as_slice() {
        return Err(DataCode::NoElems);
    }
    if fields.len() != 2 {
        return Err(DataCode::FieldCount);
    }
    match element_count(field(fields, 1)) {
        Some(elements) => Ok(elements),
        None => Err(DataCode::BadElems),
    }
}

// The data after the first record.
pub(crate) fn start(alloc: Global, fields: &ByteRecord) -> Result<Growing, DataCode>
    ensures start { MatchResult result
        (λ all. (first_record (fields_of fields.now) ≡ Ok all.elems) × (draft_of all ≡ begun all.elems)) (λ code.
        first_record (fields_of fields.now) ≡ Err code) }
    ensures keyed { MatchResult result (λ all. IsKeyed all) (λ code. Unit {0}) }
{
    let elems = first_record(fields)?;
    Ok(Growing {
        types: Seq::new(alloc),
        elems,
        ints: Seq::new(alloc),
        colls: Vec::new(alloc),
        elements: 0,
        names: NameTable::new(alloc),
    })
}

// Adds a record after the first one.
pub(crate) fn add_record(
    alloc: Global,
    all: &mut Growing,
    fields: &ByteRecord,
) -> Result<(), Refusal<DataCode>>
    requires { IsKeyed all.old }
    ensures step { ReturnsDraft result (later_record (draft_of all.old) (fields_of fields.now)) (draft_of all.new) }
    ensures keyed { OnOk result (IsKeyed all.new) }
{
    let word = field(fields, 0);
    if word == b"elems".as_slice() {
        return add_type(alloc, all, fields);
    }
    if word == b"int".as_slice() {
        return add_int(alloc, all, fields);
    }
    if word == b"coll".as_slice() {
        return add_coll(alloc, all, fields);
    }
    if word == b"collof".as_slice() {
        return add_collof(alloc, all, fields);
    }
    if word == b"tile".as_slice() {
        return add_tile(alloc, all, fields);
    }
    Err(Refusal::Fault(DataCode::UnknownRow))
}
