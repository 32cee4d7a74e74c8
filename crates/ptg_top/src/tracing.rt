//! The verb `trace`: the order in which the tasks of a consistent job run.

ghost use Rattle.std.specs.Prelude.{◌≡◌, false, IfOk, Some};
ghost use Rattle.ptg_base.specs.Limits.{AreRunCounts};
ghost use Rattle.plan_data.specs.Fit.{DataFit};
ghost use Rattle.ptg_top.specs.Denotation.{denoted};
ghost use Rattle.ptg_top.specs.Receipts.{IsReceipted};
ghost use Rattle.ptg_top.specs.Trace.{IsTraced};

use crate::host::Host;
use crate::verdict::{Finding, RanBy, Verdict};
use coll_data::Given;
use dep_iter::Matched;
use ptg_base::OutOfMemory;
use run_pool::{Settings, lay_out, run_traced};
use std::sync::Wait;
use std::thread::Threads;
use trace_core::trace_text;
use worker_core::Gate;

/// The text of the tasks of a consistent job, in the order in which workers claimed them.
pub fn trace<R: Threads + Wait + Sync, G: Gate>(
    host: &Host<R, G>,
    matched: Matched,
    given: Given,
    settings: Settings,
) -> Result<Verdict, OutOfMemory>
    requires fit { DataFit matched given }
    requires counts { AreRunCounts settings.workers settings.shards }
    requires no_preload { settings.preload ≡ false }
    ensures trace { IfOk result (λ v. IsTraced matched given (denoted v)) }
    ensures receipt { IfOk result (λ v. IsReceipted (Some settings) matched given v) }
{
    let prepared = lay_out(host.alloc, matched, given, settings, host.key)?;
    let (tasks, closed) = run_traced(host.alloc, host.rt, prepared, host.gate)?;
    let (_outcome, receipt) = closed.outcome()?;
    let text = trace_text(host.alloc, receipt.matched().plan(), tasks.as_slice())?;
    Ok(Verdict::Ran(RanBy::Table(receipt), Finding::Trace(text)))
}
