//! Runs of a job through the program, over files in memory.

use crate::changing::ChangingFiles;
use crate::noting::Noting;
use ptg_base::{OutOfMemory, Seq, Text};
use ptg_io::{File, MemFiles, MemSink};
use ptg_top::ptg_main;
use std::alloc::Global;
use std::fmt;
use std::random::RandomSource;
use std::sync::Wait;
use std::thread::Threads;
use worker_core::Gate;

/// A job's two texts, and what `run` must print of it.
#[derive(Drop)]
pub struct Job<'a> {
    pub jdf: &'a [u8],
    pub data: &'a [u8],
    pub answer: &'a [u8],
}

/// How a run ended: its status, and what it printed.
#[derive(Clone, Copy)]
pub struct End {
    status: u8,
    printed: &'static str,
}

impl fmt::Display for End {
    fn fmt<W: fmt::Write>(&self, f: &mut fmt::Formatter<W>) -> fmt::Result {
        write!(f, "status {}, {}", self.status, self.printed)
    }
}

// The name of what was printed, if it is what was expected.
fn name_if(is_so: bool, name: &'static str) -> &'static str {
    if is_so { name } else { "another text" }
}

// The arguments of a command with these options.
fn words(alloc: Global, verb: &str, options: &str) -> Result<Vec<Text>, OutOfMemory> {
    let mut list = Vec::new(alloc);
    for word in [verb, "job.jdf", "job.csv"] {
        list.push(Text::of(alloc, word.as_bytes())?)?;
    }
    for word in options.split_whitespace() {
        list.push(Text::of(alloc, word.as_bytes())?)?;
    }
    Ok(list)
}

// A job's two files, and one with a trace of it.
fn files(alloc: Global, job: &Job, trace: &[u8]) -> Result<MemFiles, OutOfMemory> {
    let mut list = Vec::new(alloc);
    for (name, bytes) in [
        ("job.jdf", job.jdf),
        ("job.csv", job.data),
        ("job.trace", trace),
    ] {
        let name = Text::of(alloc, name.as_bytes())?;
        list.push(File::new(name, Seq::of(bytes.to_vec(alloc)?)))?;
    }
    MemFiles::new(alloc, Seq::of(list), Seq::new(alloc))
}

// What a command prints of a job and a trace of it, and its status.
fn printed<R: Threads + Wait + RandomSource + Sync, G: Gate>(
    rt: &R,
    alloc: Global,
    words: &[Text],
    (job, trace): (&Job, &[u8]),
    gate: &G,
) -> Result<(MemSink, u8), OutOfMemory> {
    let mut files = files(alloc, job, trace)?;
    let mut out = MemSink::new(alloc, Seq::new(alloc));
    let ended = ptg_main(rt, alloc, words, &mut files, &mut out, gate);
    Ok((out, ended.status.code()))
}

// Files in memory with one file.
fn one_file(alloc: Global, name: &str, bytes: &[u8]) -> Result<MemFiles, OutOfMemory> {
    let name = Text::of(alloc, name.as_bytes())?;
    let mut list = Seq::new(alloc);
    list.push(File::new(name, Seq::of(bytes.to_vec(alloc)?)))?;
    MemFiles::new(alloc, list, Seq::new(alloc))
}

/// Runs a job with this gate, from one file that holds the JDF at its first load and the data at its second.
pub fn ran_from_one_file<R: Threads + Wait + RandomSource + Sync, G: Gate>(
    rt: &R,
    alloc: Global,
    job: &Job,
    gate: &G,
) -> Result<End, OutOfMemory> {
    let mut words = Vec::new(alloc);
    for word in ["run", "job", "job"] {
        words.push(Text::of(alloc, word.as_bytes())?)?;
    }
    let before = one_file(alloc, "job", job.jdf)?;
    let after = one_file(alloc, "job", job.data)?;
    let mut files = ChangingFiles::new(before, after);
    let mut out = MemSink::new(alloc, Seq::new(alloc));
    let ended = ptg_main(rt, alloc, words.as_slice(), &mut files, &mut out, gate);
    Ok(End {
        status: ended.status.code(),
        printed: name_if(out.bytes() == job.answer, "the answer"),
    })
}

/// Runs a job with these options and this gate.
pub fn ran<R: Threads + Wait + RandomSource + Sync, G: Gate>(
    rt: &R,
    alloc: Global,
    job: &Job,
    options: &str,
    gate: &G,
) -> Result<End, OutOfMemory> {
    let words = words(alloc, "run", options)?;
    let (out, status) = printed(rt, alloc, words.as_slice(), (job, b""), gate)?;
    Ok(End {
        status,
        printed: name_if(out.bytes() == job.answer, "the answer"),
    })
}

/// Traces a job with these options and a gate that notes its tasks.
pub fn traced<R: Threads + Wait + RandomSource + Sync>(
    rt: &R,
    alloc: Global,
    job: &Job,
    options: &str,
    gate: &Noting,
) -> Result<End, OutOfMemory> {
    let words = words(alloc, "trace", options)?;
    let (out, status) = printed(rt, alloc, words.as_slice(), (job, b""), gate)?;
    let noted = gate.trace(alloc)?;
    Ok(End {
        status,
        printed: name_if(out.bytes() == noted.as_bytes(), "the gate's order"),
    })
}

// What `trace` prints of a job with these options.
fn trace_of<R: Threads + Wait + RandomSource + Sync, G: Gate>(
    rt: &R,
    alloc: Global,
    job: &Job,
    options: &str,
    gate: &G,
) -> Result<MemSink, OutOfMemory> {
    let words = words(alloc, "trace", options)?;
    let (out, _status) = printed(rt, alloc, words.as_slice(), (job, b""), gate)?;
    Ok(out)
}

// Replays a trace of a job.
fn replay_of<R: Threads + Wait + RandomSource + Sync, G: Gate>(
    rt: &R,
    alloc: Global,
    job: &Job,
    trace: &[u8],
    gate: &G,
) -> Result<End, OutOfMemory> {
    let words = words(alloc, "replay", "job.trace")?;
    let (out, status) = printed(rt, alloc, words.as_slice(), (job, trace), gate)?;
    Ok(End {
        status,
        printed: name_if(out.bytes() == job.answer, "the answer"),
    })
}

/// Traces a job with these options and replays what was printed.
pub fn replayed<R: Threads + Wait + RandomSource + Sync, G: Gate>(
    rt: &R,
    alloc: Global,
    job: &Job,
    options: &str,
    gate: &G,
) -> Result<End, OutOfMemory> {
    let trace = trace_of(rt, alloc, job, options, gate)?;
    replay_of(rt, alloc, job, trace.bytes(), gate)
}
