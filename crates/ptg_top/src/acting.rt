//! What is done with a consistent job.

ghost use Rattle.std.specs.Prelude.{◌≡◌, ◌≤◌, ℕ, List, IfOk};
ghost use Rattle.ptg_io.specs.Reads.{AddsPieces};
ghost use Rattle.plan_data.specs.Fit.{DataFit};
ghost use Rattle.ptg_top.specs.Commands.{IsValidAction, table_of};
ghost use Rattle.ptg_top.specs.Denotation.{denoted};
ghost use Rattle.ptg_top.specs.Receipts.{IsReceipted};
ghost use Rattle.ptg_top.specs.Steps.{ActionEndsWith};

use crate::certifying::certify;
use crate::command::Action;
use crate::host::Host;
use crate::ranking::rank;
use crate::replaying::replay;
use crate::running::run;
use crate::summing::sum_up;
use crate::tracing::trace;
use crate::verdict::Verdict;
use coll_data::Given;
use dep_iter::Matched;
use job_stages::JobVerdict;
use ptg_base::OutOfMemory;
use ptg_io::Files;
use std::sync::Wait;
use std::thread::Threads;
use worker_core::Gate;

/// The verdict of an action on a consistent job. Only a replay reads a file.
pub fn act<R: Threads + Wait + Sync, F: Files, G: Gate>(
    host: &Host<R, G>,
    action: &Action,
    matched: Matched,
    given: Given,
    files: &mut F,
) -> Result<Verdict, OutOfMemory>
    requires valid { IsValidAction action.now }
    requires fit { DataFit matched given }
    ensures stays { F.contents files.new ≡ F.contents files.old }
    ensures grows { (other : List ℕ) → F.faults files.old other ≤ F.faults files.new other }
    ensures pieces { AddsPieces (F.contents files.old) (F.reads files.old) (F.reads files.new) }
    ensures ends { IfOk result (λ v.
        ActionEndsWith (F.reads files.old) (F.reads files.new) (F.faults files.old) (F.faults files.new) action.now
        matched given (denoted v)) }
    ensures receipt { IfOk result (λ v. IsReceipted (table_of action.now) matched given v) }
{
    match action {
        Action::Count => Ok(Verdict::Job(JobVerdict::Consistent(matched, given))),
        Action::Run(settings) => run(host, matched, given, *settings),
        Action::Sum(rows, settings) => sum_up(host, matched, given, *rows, *settings),
        Action::Trace(settings) => trace(host, matched, given, *settings),
        Action::Replay(list) => replay(host.alloc, matched, given, list, files),
        Action::Certify(settings) => certify(host, matched, given, *settings),
        Action::Rank(settings) => rank(host.alloc, matched, given, *settings),
    }
}
