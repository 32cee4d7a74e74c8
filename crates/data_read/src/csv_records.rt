//! Reads the records of a text, one after another.

ghost use Rattle.std.specs.Prelude.{List, ℕ, IfOk};
ghost use Rattle.csv.specs.Reading.{error_kind};
ghost use Rattle.csv.specs.Records.{fields_of};
ghost use Rattle.data_read.specs.Reading.{records_of};
ghost use Rattle.data_read.specs.RecordsLeft.{HasRecords, IsOfReading, NextRecord};

use csv::{ByteRecord, Error, ErrorKind, Reader, ReaderBuilder};
use ptg_base::OutOfMemory;
use std::alloc::Global;

// A reader at the first record of a text.
pub(crate) fn reader_of(alloc: Global, text: &[u8]) -> Reader<&[u8]>
    ensures { HasRecords result (records_of text.now) }
{
    ReaderBuilder::new()
        .has_headers(false)
        .flexible(true)
        .from_reader(alloc, text)
}

// Reads the next record; false if there is none.
pub(crate) fn next_record(
    reader: &mut Reader<&[u8]>,
    fields: &mut ByteRecord,
) -> Result<bool, OutOfMemory>
    requires { (records : List (List (List ℕ))) × HasRecords reader.old records }
    ensures { (records : List (List (List ℕ))) → HasRecords reader.old records
        → IfOk result (λ found. NextRecord records found (fields_of fields.new) reader.new) }
{
    match reader.read_byte_record(fields) {
        Ok(found) => Ok(found),
        Err(error) => Err(cause_of(&error)),
    }
}

// Why a record was not read. Records may have any number of fields, bytes need not be text, and reading a slice never
// fails. So memory ran out.
fn cause_of(error: &Error) -> OutOfMemory
    requires { IsOfReading (error_kind error.now) }
{
    match error.kind() {
        ErrorKind::Io(_) | ErrorKind::OutOfMemory => OutOfMemory,
        _ => unreachable!(),
    }
}
