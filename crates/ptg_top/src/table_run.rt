//! The run of a consistent job by the workers of a table.

ghost use Rattle.std.specs.Prelude.{◌≡◌, true, IfOk, IsOk};
ghost use Rattle.ptg_base.specs.Limits.{AreRunCounts};
ghost use Rattle.coll_data.specs.Data.{Data};
ghost use Rattle.plan_core.specs.declared.plan.Plan.{Plan};
ghost use Rattle.plan_data.specs.Fit.{DataFit};
ghost use Rattle.run_pool.specs.Runs.{run_of};
ghost use Rattle.run_pool.specs.declared.settings.Settings.{Settings as SettingsValue};
ghost use Rattle.ptg_top.specs.Tables.{IsTableAnswer};

use crate::host::Host;
use coll_data::Given;
use dep_iter::Matched;
use dep_table::Receipt;
use flow_meaning::Outcome;
use ptg_base::OutOfMemory;
use run_pool::{Prepared, Settings, lay_out, run};
use std::sync::Wait;
use std::thread::Threads;
use worker_core::Gate;

/// Runs a job that was made ready, and returns its answer with the receipt of its table. A preloaded run is never
/// refused memory.
pub fn run_prepared<R: Threads + Wait + Sync, G: Gate>(
    host: &Host<R, G>,
    prepared: Prepared,
) -> Result<(Receipt, Outcome), OutOfMemory>
    ensures ran { (P : Plan) (given : Data) (settings : SettingsValue) → prepared ≡ run_of P given settings
        → IfOk result (λ (receipt, outcome). IsTableAnswer settings P given receipt outcome) }
    ensures preloaded { prepared.job.preloaded ≡ true → IsOk result }
{
    let closed = run(host.rt, prepared, host.gate)?;
    let (outcome, receipt) = closed.outcome()?;
    Ok((receipt, outcome))
}

/// Runs a job, and returns its answer with the receipt of its table. A preload may have any size.
pub fn run_on_table<R: Threads + Wait + Sync, G: Gate>(
    host: &Host<R, G>,
    matched: Matched,
    given: Given,
    settings: Settings,
) -> Result<(Receipt, Outcome), OutOfMemory>
    requires fit { DataFit matched given }
    requires counts { AreRunCounts settings.workers settings.shards }
    ensures { IfOk result (λ (receipt, outcome). IsTableAnswer settings matched given receipt outcome) }
{
    let prepared = lay_out(host.alloc, matched, given, settings, host.key)?;
    run_prepared(host, prepared)
}
