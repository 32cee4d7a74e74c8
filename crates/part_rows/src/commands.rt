//! Words of a command line, read into the command that they form.

use ptg_base::Text;
use ptg_words::{Order, WordsRefusal, words};
use row_files::{Printed, Why};
use std::alloc::{AllocError, Global};

/// Reads words. Returns the command that they form: its verb, its files and numbers, and for `run` whether it has a
/// preload. If they form none, returns `usage`.
pub fn read(alloc: Global, list: &[Text]) -> Result<Printed, Why> {
    match words(alloc, list) {
        Ok(order) => Ok(Printed {
            text: spelled(alloc, &order)?.into_bytes(),
            status: 0,
        }),
        Err(WordsRefusal::Usage) => Ok(Printed {
            text: b"usage\n".as_slice().to_vec(alloc)?,
            status: 1,
        }),
        Err(WordsRefusal::OutOfMemory) => Err(Why("there is no memory for it")),
    }
}

// A line with a command: its verb, its files and its numbers.
fn spelled(alloc: Global, order: &Order) -> Result<String, AllocError> {
    match order {
        Order::Run(jdf, table, workers, shards, preload) => {
            let files = names(alloc, "run", &[jdf, table])?;
            format!(in alloc; "{files} {workers} {shards} {preload}\n")
        }
        Order::Show(jdf) => ended(names(alloc, "show", &[jdf])?),
        Order::Check(jdf, table) => ended(names(alloc, "check", &[jdf, table])?),
        Order::Demo(rows) => format!(in alloc; "demo {rows}\n"),
        Order::Trace(jdf, table, workers, shards) => {
            let files = names(alloc, "trace", &[jdf, table])?;
            format!(in alloc; "{files} {workers} {shards}\n")
        }
        Order::Replay(jdf, table, trace) => ended(names(alloc, "replay", &[jdf, table, trace])?),
        Order::Certify(jdf, table) => ended(names(alloc, "certify", &[jdf, table])?),
        Order::Ranks(jdf, table, ranks, seed) => {
            let files = names(alloc, "ranks", &[jdf, table])?;
            format!(in alloc; "{files} {ranks} {seed}\n")
        }
    }
}

// A verb with the names of files.
fn names(alloc: Global, verb: &str, files: &[&Text]) -> Result<String, AllocError> {
    let mut line = verb.to_string(alloc)?;
    for file in files {
        line.push_str(" ")?;
        line.push_str(str::from_utf8(file.bytes()).unwrap_or(""))?;
    }
    Ok(line)
}

// The line with its LF.
fn ended(line: String) -> Result<String, AllocError> {
    let mut line = line;
    line.push_str("\n")?;
    Ok(line)
}
