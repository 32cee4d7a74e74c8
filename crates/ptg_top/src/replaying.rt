//! The verb `replay`: a consistent job, run in the order of a trace file.

ghost use Rattle.std.specs.Prelude.{◌≡◌, ◌≤◌, ℕ, List, IfOk, None};
ghost use Rattle.std.specs.Str.{IsUtf8};
ghost use Rattle.ptg_io.specs.Reads.{AddsPieces};
ghost use Rattle.plan_data.specs.Fit.{DataFit};
ghost use Rattle.ptg_top.specs.Denotation.{denoted};
ghost use Rattle.ptg_top.specs.Replay.{IsReplayOf};
ghost use Rattle.ptg_top.specs.Receipts.{IsReceipted};
ghost use Rattle.ptg_top.specs.Steps.{ReplayEndsWith};

use crate::reading::{name_of, unread};
use crate::verdict::{Finding, RanBy, Verdict};
use coll_data::Given;
use dep_iter::Matched;
use ptg_base::{OutOfMemory, Text};
use ptg_io::{Files, LoadFault, load};
use std::alloc::Global;
use trace_core::trace_too_long;
use trace_replay::judge_trace;

/// The first fault of a trace file for a consistent job, or the job's answer.
pub fn replay<F: Files>(
    alloc: Global,
    matched: Matched,
    given: Given,
    trace: &Text,
    files: &mut F,
) -> Result<Verdict, OutOfMemory>
    requires name { IsUtf8 trace.now }
    requires fit { DataFit matched given }
    ensures stays { F.contents files.new ≡ F.contents files.old }
    ensures grows { (other : List ℕ) → F.faults files.old other ≤ F.faults files.new other }
    ensures pieces { AddsPieces (F.contents files.old) (F.reads files.old) (F.reads files.new) }
    ensures verdict { IfOk result (λ v.
        ReplayEndsWith (F.reads files.old) (F.reads files.new) (F.faults files.old) (F.faults files.new) trace.now
        matched given (denoted v)) }
    ensures receipt { IfOk result (λ v. IsReceipted None matched given v) }
{
    match load(alloc, files, name_of(trace)) {
        Ok(text) => replay_of(alloc, matched, given, text.as_slice()),
        Err(LoadFault::TooLong) => Ok(Verdict::TraceRefused(trace_too_long())),
        Err(LoadFault::Failed) => unread(alloc, trace),
        Err(LoadFault::OutOfMemory) => Err(OutOfMemory),
    }
}

// The first fault of the text of a trace, or the job's answer.
fn replay_of(
    alloc: Global,
    matched: Matched,
    given: Given,
    text: &[u8],
) -> Result<Verdict, OutOfMemory>
    requires { DataFit matched given }
    ensures verdict { IfOk result (λ v. IsReplayOf text.now matched given (denoted v)) }
    ensures receipt { IfOk result (λ v. IsReceipted None matched given v) }
{
    matched.plan_is_consistent();
    let verdict = judge_trace(alloc, &matched, given, text)?;
    match verdict {
        Ok(outcome) => Ok(Verdict::Ran(RanBy::OneThread(matched), Finding::Answer(outcome))),
        Err(fault) => Ok(Verdict::TraceRefused(fault)),
    }
}
