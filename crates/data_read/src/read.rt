//! Reads the data that a text spells.

ghost use Rattle.std.specs.Prelude.{◌≡◌, ◌≤◌, ◌+◌, ℕ, List, Ok, Err, length};
ghost use Rattle.std.specs.Result.{MatchResult};
ghost use Rattle.ptg_base.specs.Limits.{most_bytes};
ghost use Rattle.ptg_base.specs.declared.refusal.Refusal.TheVariants.{Fault};
ghost use Rattle.data_read.specs.Growing.{draft_of, IsKeyed, refusal_at};
ghost use Rattle.ptg_base.specs.Returns.{FindsOrRefuses, Returns, ReturnsRefusal};
ghost use Rattle.data_read.specs.Reading.{all_records, as_data, data_of, later_records};
ghost use Rattle.data_read.specs.RecordsLeft.{HasRecords};

use crate::csv_records::{next_record, reader_of};
use crate::finish::finish;
use crate::growing::Growing;
use crate::record::{add_record, start};
use coll_data::{DataCode, DataFault, DataRefusal, Given};
use csv::{ByteRecord, Reader};
use ptg_base::Refusal;
use std::alloc::Global;

// The data that a text of any length spells, or its first fault.
fn read(alloc: Global, bytes: &[u8]) -> Result<Given, DataRefusal>
    ensures { Returns (λ given. given) result (data_of bytes.now) }
{
    let mut reader = reader_of(alloc, bytes);
    let mut fields = ByteRecord::new(alloc);
    read_records(alloc, &mut reader, &mut fields)
}

// The data of the records of a reader that is at the first of them.
fn read_records(
    alloc: Global,
    reader: &mut Reader<&[u8]>,
    fields: &mut ByteRecord,
) -> Result<Given, DataRefusal>
    requires { (records : List (List (List ℕ))) × HasRecords reader.old records }
    ensures { (records : List (List (List ℕ))) → HasRecords reader.old records
        → Returns (λ given. given) result (as_data (length records) (all_records records)) }
{
    if !next_record(reader, fields)? {
        return Err(refused(1, DataCode::NoElems));
    }
    let mut all = match start(alloc, fields) {
        Ok(all) => all,
        Err(code) => return Err(refused(1, code)),
    };
    let count = add_later_records(alloc, reader, fields, &mut all)?;
    Ok(finish(alloc, all, count)?)
}

// Adds the records after the first, and returns how many records there are in all.
fn add_later_records(
    alloc: Global,
    reader: &mut Reader<&[u8]>,
    fields: &mut ByteRecord,
    all: &mut Growing,
) -> Result<u64, DataRefusal>
    requires keyed { IsKeyed all.old }
    requires records { (records : List (List (List ℕ))) × HasRecords reader.old records }
    ensures { (records : List (List (List ℕ))) → HasRecords reader.old records
        → MatchResult result
        (λ count. (later_records 2 (draft_of all.old) records ≡ Ok (draft_of all.new)) × (count ≡ length records + 1))
        (λ refusal. ReturnsRefusal refusal (later_records 2 (draft_of all.old) records)) }
{
    for number in 2..u64::MAX {
        if !next_record(reader, fields)? {
            return Ok(number - 1);
        }
        match add_record(alloc, all, fields) {
            Ok(_) => {}
            Err(refusal) => return Err(refused_at(number, refusal)),
        }
    }
    // No text has that many records.
    Err(Refusal::OutOfMemory)
}

// The refusal of the record of this number.
fn refused_at(row: u64, refusal: Refusal<DataCode>) -> DataRefusal
    ensures { result ≡ refusal_at row refusal }
{
    match refusal {
        Refusal::Fault(code) => refused(row, code),
        Refusal::OutOfMemory => Refusal::OutOfMemory,
    }
}

// The refusal with this code, for the record of this number.
fn refused(row: u64, code: DataCode) -> DataRefusal
    ensures { result ≡ Fault (record { row = row; code = code }) }
{
    Refusal::Fault(DataFault { row, code })
}

/// Reads the data that a text of at most 16 MiB spells. If it spells none, it is refused with its first fault: that of
/// the first record that has one, with the first code that fits it.
pub fn read_data(alloc: Global, bytes: &[u8]) -> Result<Given, DataRefusal>
    requires { length bytes.now ≤ most_bytes }
    ensures exact { FindsOrRefuses (λ given. data_of bytes.now ≡ Ok given) (λ fault. data_of bytes.now ≡ Err fault)
        result }
{
    read(alloc, bytes)
}
