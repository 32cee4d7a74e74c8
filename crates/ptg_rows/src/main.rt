//! Tries the rows of the program, and prints those that come out otherwise. A row is a call of `ptg_main` with what it
//! must print, written down in a file that an argument names.
//!
//! All rows are tried three times: with reads and writes as large as possible, with one byte in each read and write,
//! and with the most workers and shards.
#![tactic(auto)]

mod known;
mod settings;

use crate::known::Known;
use crate::settings::with_settings;
use ptg_base::Seq;
use ptg_io::{ByteFiles, ByteSink, MemFiles, MemSink};
use ptg_top::ptg_main;
use row_files::{Call, Printed, RowCall, Why, all_as_wanted};
use std::alloc::Global;
use std::io;
use std::process::ExitCode;
use std::random::RandomSource;
use std::rt::{Env, Files};
use std::sync::Wait;
use std::thread::Threads;
use worker_core::Always;

// One worker and one shard.
const ONE: [&str; 4] = ["--workers", "1", "--shards", "1"];

// The largest numbers of workers and shards.
const MANY: [&str; 4] = ["--workers", "64", "--shards", "256"];

fn main(rt: HostRuntime) -> ExitCode {
    match all_ways(&rt) {
        Ok(true) => ExitCode::SUCCESS,
        _ => ExitCode::FAILURE,
    }
}

// Whether all rows come out as wanted, with each choice of settings.
fn all_ways<R: Print + Files + Env + Threads + Wait + RandomSource + Sync + AllocGlobal>(
    rt: &R,
) -> io::Result<bool> {
    let at_large = all_as_wanted(rt, &Program { settings: &[] })?;
    let by_bytes = all_as_wanted(rt, &ProgramByBytes { settings: &ONE })?;
    let by_many = all_as_wanted(rt, &Program { settings: &MANY })?;
    Ok(at_large && by_bytes && by_many)
}

// The program over files and output in memory, with settings for the rows that have none.
#[derive(Drop)]
struct Program<'a> {
    settings: &'a [&'static str],
}

impl<'a> Call for Program<'a> {
    fn printed<R: Threads + Wait + RandomSource + Sync>(
        &self,
        rt: &R,
        alloc: Global,
        row_call: RowCall,
    ) -> Result<Printed, Why> {
        let RowCall {
            files,
            words,
            failing_reads,
            failing_writes,
        } = row_call;
        let words = with_settings(alloc, words, self.settings)?;
        let mut files = MemFiles::new(alloc, Seq::of(files), Seq::of(failing_reads))?;
        let mut out = MemSink::new(alloc, Seq::of(failing_writes));
        let ended = ptg_main(
            &Known { rt },
            alloc,
            words.as_slice(),
            &mut files,
            &mut out,
            &Always,
        );
        Ok(Printed {
            text: out.bytes().to_vec(alloc)?,
            status: ended.status.code(),
        })
    }
}

// The same, byte by byte. A row with a failing read or write is tried with `Program`, since the row gives the number of
// that call in a run with large reads and writes.
#[derive(Drop)]
struct ProgramByBytes<'a> {
    settings: &'a [&'static str],
}

impl<'a> Call for ProgramByBytes<'a> {
    fn printed<R: Threads + Wait + RandomSource + Sync>(
        &self,
        rt: &R,
        alloc: Global,
        row_call: RowCall,
    ) -> Result<Printed, Why> {
        if !row_call.failing_reads.is_empty() || !row_call.failing_writes.is_empty() {
            let at_large = Program {
                settings: self.settings,
            };
            return at_large.printed(rt, alloc, row_call);
        }
        let words = with_settings(alloc, row_call.words, self.settings)?;
        let files = MemFiles::new(alloc, Seq::of(row_call.files), Seq::new(alloc))?;
        let mut files = ByteFiles { files };
        let sink = MemSink::new(alloc, Seq::new(alloc));
        let mut out = ByteSink { sink };
        let ended = ptg_main(
            &Known { rt },
            alloc,
            words.as_slice(),
            &mut files,
            &mut out,
            &Always,
        );
        Ok(Printed {
            text: out.sink.bytes().to_vec(alloc)?,
            status: ended.status.code(),
        })
    }
}
