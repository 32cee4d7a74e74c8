//! What a program of rows calls.

ghost use Rattle.std.specs.Thread.{IsSync};

use crate::why::Why;
use crate::worked_row::{Printed, RowCall};
use std::alloc::Global;
use std::random::RandomSource;
use std::sync::Wait;
use std::thread::Threads;

/// What a row calls with its words and files.
pub trait Call {
    /// What the call of a row prints, and its status. It may start threads, and wait.
    fn printed<R: Threads + Wait + RandomSource + Sync>(
        &self,
        rt: &R,
        alloc: Global,
        row_call: RowCall,
    ) -> Result<Printed, Why>
        requires { IsSync R.row };
}
