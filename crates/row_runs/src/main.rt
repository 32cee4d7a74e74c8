//! Shows how rows are reported that come out otherwise or can't be read. Their call looks only at the length of its
//! file.
#![tactic(auto)]

use row_files::{Call, Printed, RowCall, Why, all_as_wanted};
use std::alloc::Global;
use std::process::ExitCode;
use std::random::RandomSource;
use std::sync::Wait;
use std::thread::Threads;

fn main(rt: HostRuntime) -> ExitCode {
    match all_as_wanted(&rt, &ByLength) {
        Ok(true) => ExitCode::SUCCESS,
        _ => ExitCode::FAILURE,
    }
}

// A file of fewer than three bytes is refused in one line, one of three is not, and a longer one is, in two lines.
struct ByLength;

impl Call for ByLength {
    fn printed<R: Threads + Wait + RandomSource + Sync>(
        &self,
        _rt: &R,
        alloc: Global,
        row_call: RowCall,
    ) -> Result<Printed, Why> {
        let length = row_call.files.first().map_or(0, |file| file.bytes().len());
        let (text, status) = match length {
            0..=2 => (b"short\n".as_slice(), 2),
            3 => (b"long".as_slice(), 0),
            _ => (b"too\nlong\n".as_slice(), 2),
        };
        Ok(Printed {
            text: text.to_vec(alloc)?,
            status,
        })
    }
}
