//! The verb `demo`: the summary of the made job.

ghost use Rattle.std.specs.Prelude.{◌≡◌, IfOk, Some};
ghost use Rattle.ptg_base.specs.Limits.{AreRunCounts};
ghost use Rattle.plan_data.specs.Fit.{DataFit};
ghost use Rattle.ptg_top.specs.Denotation.{denoted};
ghost use Rattle.ptg_top.specs.Demo.{IsSummary, summed};
ghost use Rattle.ptg_top.specs.Receipts.{IsReceipted};

use crate::host::Host;
use crate::table_run::run_on_table;
use crate::verdict::{Finding, RanBy, Verdict};
use coll_data::Given;
use dep_iter::Matched;
use flow_meaning::Outcome;
use ptg_base::OutOfMemory;
use report_text::Summary;
use run_pool::Settings;
use std::sync::Wait;
use std::thread::Threads;
use worker_core::Gate;

/// The summary of the made job of this many rows of tiles if its run is complete, and its answer otherwise.
pub fn sum_up<R: Threads + Wait + Sync, G: Gate>(
    host: &Host<R, G>,
    matched: Matched,
    given: Given,
    rows: u32,
    settings: Settings,
) -> Result<Verdict, OutOfMemory>
    requires fit { DataFit matched given }
    requires counts { AreRunCounts settings.workers settings.shards }
    ensures summary { IfOk result (λ v. IsSummary rows matched given (denoted v)) }
    ensures receipt { IfOk result (λ v. IsReceipted (Some settings) matched given v) }
{
    let (receipt, outcome) = run_on_table(host, matched, given, settings)?;
    Ok(Verdict::Ran(RanBy::Table(receipt), summed(rows, outcome)))
}

// What is found of the answer of the made job.
fn summed(rows: u32, outcome: Outcome) -> Finding
    ensures { result ≡ summed rows outcome }
{
    match outcome {
        Outcome::Complete(tasks, given) => Finding::Summary(Summary {
            rows,
            tasks,
            sum: given.element_sum(),
        }),
        outcome => Finding::Answer(outcome),
    }
}
