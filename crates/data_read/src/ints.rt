//! Adds records of integers.

ghost use Rattle.std.specs.Prelude.{OnOk};
ghost use Rattle.csv.specs.Records.{fields_of};
ghost use Rattle.data_read.specs.Growing.{draft_of, IsKeyed, ReturnsDraft};
ghost use Rattle.data_read.specs.Records.{int_record};

use crate::field::{field, whole};
use crate::growing::{Growing, Known};
use crate::names::is_new;
use coll_data::DataCode;
use csv::ByteRecord;
use ptg_base::{Refusal, Text, is_name};
use std::alloc::Global;

// Adds the integer of an `int` record.
pub(crate) fn add_int(
    alloc: Global,
    all: &mut Growing,
    fields: &ByteRecord,
) -> Result<(), Refusal<DataCode>>
    requires { IsKeyed all.old }
    ensures step { ReturnsDraft result (int_record (draft_of all.old) (fields_of fields.now)) (draft_of all.new) }
    ensures keyed { OnOk result (IsKeyed all.new) }
{
    if fields.len() != 3 {
        return Err(Refusal::Fault(DataCode::FieldCount));
    }
    let bytes = field(fields, 1);
    if !is_name(bytes) {
        return Err(Refusal::Fault(DataCode::BadName));
    }
    let name = Text::of(alloc, bytes)?;
    if !is_new(all, &name) {
        return Err(Refusal::Fault(DataCode::NameTwice));
    }
    let Some(value) = whole(field(fields, 2)) else {
        return Err(Refusal::Fault(DataCode::BadNumber));
    };
    let key = Text::of(alloc, bytes)?;
    all.names.add(key, Known::Integer)?;
    all.ints.push((name, value))?;
    Ok(())
}
