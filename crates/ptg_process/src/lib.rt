//! The program over the arguments, files and output of a process (`process`), and the exit code that the process ends
//! with.
#![tactic(auto)]

ghost use Rattle.std.specs.Prelude.{◌≡◌};
ghost use Rattle.std.specs.Process.{exit_status};
ghost use Rattle.ptg_top.specs.Codes.{code_of};
ghost use Rattle.ptg_top.specs.declared.status.Status.{Status as StatusValue};

use ptg_base::Text;
use ptg_os::{OsFiles, OsSink, words};
use ptg_top::{Ended, Status, ptg_main};
use std::alloc::Global;
use std::env::Env;
use std::io::Write;
use std::process::ExitCode;
use std::random::RandomSource;
use std::rt::Files;
use std::sync::Wait;
use std::thread::Threads;
use worker_core::{Always, Gate};

/// Carries out the command that these arguments form over the system's files, with this output and this gate.
pub fn carry_out<R: Threads + Wait + RandomSource + Files + Sync, W: Write + Drop, G: Gate>(
    rt: &R,
    alloc: Global,
    words: &[Text],
    out: W,
    gate: &G,
) -> Ended {
    let mut files = OsFiles::new(rt, alloc);
    let mut sink = OsSink::new(out);
    ptg_main(rt, alloc, words, &mut files, &mut sink, gate)
}

/// The program: carries out the command that the process's arguments form, and returns the exit code of its status. If
/// the arguments can't be read, it returns the code of `OutOfMemory` and writes nothing.
pub fn process<R: Threads + Wait + RandomSource + Env + Files + Sync, W: Write + Drop>(
    rt: &R,
    alloc: Global,
    out: W,
) -> ExitCode
    ensures { (status : StatusValue) × (exit_status result ≡ code_of status) }
{
    match words(rt, alloc) {
        Ok(list) => carry_out(rt, alloc, list.as_slice(), out, &Always)
            .status
            .exit_code(),
        Err(_) => Status::OutOfMemory.exit_code(),
    }
}
