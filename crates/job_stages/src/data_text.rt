//! The text of a data file.

ghost use Rattle.std.specs.Prelude.{◌≡◌, IfOk};
ghost use Rattle.ptg_base.specs.Returns.{FindsOrRefuses};
ghost use Rattle.job_stages.specs.DataText.{IsData, IsDataFault, too_long};
ghost use Rattle.job_stages.specs.Verdict.{missing_name};

use coll_data::{DataCode, DataFault, DataRefusal, Given};
use data_read::read_data;
use ptg_base::{MOST_BYTES, OutOfMemory};
use std::alloc::Global;

/// The fault of a data file of more than 16 MiB, which is not read to its end.
pub fn data_too_long() -> DataFault
    ensures { result ≡ too_long }
{
    DataFault {
        row: 0,
        code: DataCode::TooLong,
    }
}

/// The data that a text of any length spells, or its first fault.
pub fn given_of(alloc: Global, text: &[u8]) -> Result<Given, DataRefusal>
    ensures exact { FindsOrRefuses (IsData text.now) (IsDataFault text.now) result }
{
    if text.len() > MOST_BYTES {
        return Err(DataRefusal::Fault(data_too_long()));
    }
    read_data(alloc, text)
}

/// The fault of data that lack a global, at the row after their last record. If that row has no number, returns out of
/// memory; no text has so many records.
pub(crate) fn missing_name(given: &Given) -> Result<DataFault, OutOfMemory>
    ensures { IfOk result (λ f. f ≡ missing_name given.now) }
{
    match given.records_read().checked_add(1) {
        Some(row) => Ok(DataFault {
            row,
            code: DataCode::MissingName,
        }),
        None => Err(OutOfMemory),
    }
}
