//! The program with a gate that counts the bodies that begin. A preloaded run that is out of memory has begun no body.
//! If one has begun in a run that is out of memory, the program prints so. A run with status 9 and no text shows that
//! none had.

use crate::begun::Begun;
use ptg_base::Text;
use ptg_process::carry_out;
use ptg_top::Status;
use std::alloc::Global;
use std::io;
use std::process::ExitCode;
use std::random::RandomSource;
use std::rt::Files;
use std::sync::Wait;
use std::thread::Threads;

/// Carries out a command over the system's files.
pub fn carried_out<R: Threads + Wait + RandomSource + Files + Print + Sync>(
    rt: &R,
    alloc: Global,
    words: &[Text],
) -> ExitCode {
    let gate = Begun::new();
    let ended = carry_out(rt, alloc, words, io::writer(rt), &gate);
    let bodies = gate.bodies();
    if ended.status == Status::OutOfMemory && bodies > 0 {
        // If the line can't be written, the status is one that no run out of memory has.
        if println!(rt; "no memory after the begin of {bodies} bodies").is_err() {
            return ExitCode::FAILURE;
        }
    }
    ended.status.exit_code()
}
