//! Adds records of types of tiles.

ghost use Rattle.std.specs.Prelude.{◌≡◌, ◌<◌, ◌≤◌, Ok, Err, OnOk, length};
ghost use Rattle.std.specs.Result.{MatchResult};
ghost use Rattle.ptg_base.specs.Limits.{most_named_types};
ghost use Rattle.csv.specs.Records.{fields_of};
ghost use Rattle.data_read.specs.Draft.{type_among, type_named, with_type};
ghost use Rattle.data_read.specs.Growing.{draft_of, IsKeyed, ReturnsDraft};
ghost use Rattle.data_read.specs.Records.{type_record};

use crate::field::{element_count, field};
use crate::growing::Growing;
use coll_data::{DEFAULT_TYPE, DataCode};
use csv::ByteRecord;
use ptg_base::{Refusal, Text, is_name};
use std::alloc::Global;

// The most types of the data besides DEFAULT.
const MOST_NAMED_TYPES: usize = 15;

// The number and the elements of the type with this name, among those after DEFAULT.
fn later_type(types: &[(Text, u32)], name: &[u8]) -> Option<(u32, u32)>
    requires { length types.now ≤ most_named_types }
    ensures { result ≡ type_among name.now 1 types.now }
{
    let mut number: u32 = 1;
    for known in types {
        if name == known.0.bytes() {
            return Some((number, known.1));
        }
        number += 1;
    }
    None
}

// The number and the elements of the type with this name.
pub(crate) fn type_named(all: &Growing, name: &[u8]) -> Option<(u32, u32)>
    ensures { result ≡ type_named (draft_of all.now) name.now }
{
    if name == DEFAULT_TYPE {
        return Some((0, all.elems));
    }
    later_type(all.types.as_slice(), name)
}

// The name and the elements of the type that a record adds.
fn new_type<'a>(all: &Growing, fields: &'a ByteRecord) -> Result<(&'a [u8], u32), DataCode>
    ensures step { MatchResult result
        (λ type.
        type_record (draft_of all.now) (fields_of fields.now) ≡ Ok (with_type (draft_of all.now) type.0.now type.1))
        (λ code. type_record (draft_of all.now) (fields_of fields.now) ≡ Err code) }
    ensures at_most { MatchResult result (λ type. length all.now.types < most_named_types) (λ code. Unit {0}) }
{
    if fields.len() == 2 {
        return Err(DataCode::ElemsTwice);
    }
    if fields.len() != 3 {
        return Err(DataCode::FieldCount);
    }
    let Some(elements) = element_count(field(fields, 2)) else {
        return Err(DataCode::BadElems);
    };
    let name = field(fields, 1);
    if !is_name(name) {
        return Err(DataCode::BadName);
    }
    if type_named(all, name).is_some() {
        return Err(DataCode::TypeTwice);
    }
    if all.types.len() >= MOST_NAMED_TYPES {
        return Err(DataCode::TooManyTypes);
    }
    Ok((name, elements))
}

// Adds the type of an `elems` record after the first.
pub(crate) fn add_type(
    alloc: Global,
    all: &mut Growing,
    fields: &ByteRecord,
) -> Result<(), Refusal<DataCode>>
    requires { IsKeyed all.old }
    ensures step { ReturnsDraft result (type_record (draft_of all.old) (fields_of fields.now)) (draft_of all.new) }
    ensures keyed { OnOk result (IsKeyed all.new) }
{
    let (name, elements) = match new_type(all, fields) {
        Ok(found) => found,
        Err(code) => return Err(Refusal::Fault(code)),
    };
    let name = Text::of(alloc, name)?;
    all.types.push((name, elements))?;
    Ok(())
}
