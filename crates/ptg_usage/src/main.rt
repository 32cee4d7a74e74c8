//! The program again. Run without arguments, it prints `usage` and ends with status 1, which shows that the status of a
//! refusal is that of the process.
#![tactic(auto)]

use ptg_process::process;
use std::io;
use std::process::ExitCode;

fn main(rt: HostRuntime) -> ExitCode {
    process(&rt, rt.alloc(), io::writer(&rt))
}
