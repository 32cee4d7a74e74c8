//! The verb `run`: the answer of a consistent job.

ghost use Rattle.std.specs.Prelude.{IfOk, Some};
ghost use Rattle.ptg_base.specs.Limits.{AreRunCounts};
ghost use Rattle.plan_data.specs.Fit.{DataFit};
ghost use Rattle.ptg_top.specs.Denotation.{denoted};
ghost use Rattle.ptg_top.specs.Answering.{IsAnswer};
ghost use Rattle.ptg_top.specs.Receipts.{IsReceipted};

use crate::host::Host;
use crate::table_run::run_prepared;
use crate::verdict::{Finding, RanBy, Verdict};
use coll_data::Given;
use dep_iter::Matched;
use ptg_base::OutOfMemory;
use run_pool::{PrepareFault, Settings, prepare};
use std::sync::Wait;
use std::thread::Threads;
use worker_core::Gate;

/// The answer of a consistent job, run by the workers of a table, unless its preload is too large.
pub fn run<R: Threads + Wait + Sync, G: Gate>(
    host: &Host<R, G>,
    matched: Matched,
    given: Given,
    settings: Settings,
) -> Result<Verdict, OutOfMemory>
    requires fit { DataFit matched given }
    requires counts { AreRunCounts settings.workers settings.shards }
    ensures answer { IfOk result (λ v. IsAnswer settings matched given (denoted v)) }
    ensures receipt { IfOk result (λ v. IsReceipted (Some settings) matched given v) }
{
    match prepare(host.alloc, matched, given, settings, host.key) {
        Ok(prepared) => {
            let (receipt, outcome) = run_prepared(host, prepared)?;
            Ok(Verdict::Ran(RanBy::Table(receipt), Finding::Answer(outcome)))
        }
        Err(PrepareFault::PreloadTooLarge(_bytes)) => Ok(Verdict::PreloadTooLarge),
        Err(PrepareFault::OutOfMemory) => Err(OutOfMemory),
    }
}
