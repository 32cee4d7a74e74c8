//! The program, over the arguments, files and standard output of its process.
#![tactic(auto)]

use ptg_process::process;
use std::io;
use std::process::ExitCode;

fn main(rt: HostRuntime) -> ExitCode {
    process(&rt, rt.alloc(), io::writer(&rt))
}
