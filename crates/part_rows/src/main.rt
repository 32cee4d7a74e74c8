//! Rows of parts whose results no verb prints: commands, tokens, bodies and data alone, the edges of tasks, the walk
//! that accepts a job, certificates and traces.
//!
//! Each row is a call of a part with its wanted result, written in a file. The program's arguments name the files. It
//! prints the rows that do not come out as wanted.
#![tactic(auto)]

mod accepted;
mod bodies;
mod certificates;
mod commands;
mod data;
mod edits;
mod expressions;
mod jobs;
mod names;
mod replays;
mod scope;
mod spaces;
mod tasks;
mod texts;
mod tokens;

use crate::jobs::JobPart;
use crate::texts::TextPart;
use ptg_base::Text;
use row_files::{Call, Printed, RowCall, Why, all_as_wanted};
use std::alloc::Global;
use std::process::ExitCode;
use std::random::RandomSource;
use std::sync::Wait;
use std::thread::Threads;

fn main(rt: HostRuntime) -> ExitCode {
    match all_as_wanted(&rt, &Parts) {
        Ok(true) => ExitCode::SUCCESS,
        _ => ExitCode::FAILURE,
    }
}

// The parts: the first of a row's words says which one is called.
struct Parts;

impl Call for Parts {
    fn printed<R: Threads + Wait + RandomSource + Sync>(
        &self,
        _rt: &R,
        alloc: Global,
        row_call: RowCall,
    ) -> Result<Printed, Why> {
        part_printed(alloc, &row_call)
    }
}

// What is printed by the part that a row's words call.
fn part_printed(alloc: Global, row_call: &RowCall) -> Result<Printed, Why> {
    let [word, words @ ..] = row_call.words.as_slice() else {
        return Err(Why("no word that says what is called"));
    };
    let word = text_of(word)?;
    if let Some(part) = JobPart::of(word) {
        return part.printed(alloc, row_call, words);
    }
    let Some(part) = TextPart::of(word) else {
        return Err(Why("a word that calls nothing"));
    };
    part.printed(alloc, row_call.files.as_slice(), words)
}

// The word as text.
fn text_of(word: &Text) -> Result<&str, Why> {
    str::from_utf8(word.bytes()).map_err(|_| Why("a word that is not UTF-8"))
}
