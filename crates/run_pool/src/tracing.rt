//! A run that also returns the order in which its tasks were claimed.

ghost use Rattle.std.specs.Prelude.{◌≡◌, ◌++◌, ℕ, List, false, map, IfOk};
ghost use Rattle.std.specs.List.{flat_map};
ghost use Rattle.ptg_base.specs.Task.{Task};
ghost use Rattle.worker_core.specs.Working.{logged};
ghost use Rattle.shard_meaning.specs.Calm.{HaveNoWork};
ghost use Rattle.flow_meaning.specs.Order.{IsWholeOrder};
ghost use Rattle.dep_table.specs.StampOrders.{AreInStampOrder};
ghost use Rattle.work_board.specs.Handed.{WereHandedInputs};
ghost use Rattle.table_rule.specs.Records.{joined, joined_handed};
ghost use Rattle.dep_table.specs.ClosedMeaning.{HasTheMeaning};
ghost use Rattle.run_pool.specs.Gates.{AreLetThrough};
ghost use Rattle.run_pool.specs.Seated.{log_on};
ghost use Rattle.run_pool.specs.Traces.{IsTraceOf};
ghost use Rattle.work_board.specs.Stamps.{StampedTask};

use crate::prepared::Prepared;
use crate::running::passes_of;
use crate::seating::PaddedDesk;
use crate::workers::team;
use dep_table::{
    Closed, a_quiet_close_has_an_order_of_what_ran, a_quiet_close_has_the_meaning,
    an_idle_pass_is_a_workers_pass,
};
use ptg_base::{OutOfMemory, TaskId};
use std::alloc::Global;
use std::sync::Wait;
use std::thread::Threads;
use table_rule::all_passes_stay_all;
use worker_core::Gate;

// A log with copies of more entries at its end.
fn with_entries(
    log: Vec<(u64, TaskId)>,
    more: &[(u64, TaskId)],
) -> Result<Vec<(u64, TaskId)>, OutOfMemory>
    ensures { IfOk result (λ r. r.items ≡ log.items ++ more.now) }
{
    let mut log = log;
    for entry in more {
        log.push((entry.0, entry.1.copy()))?;
    }
    Ok(log)
}

// The entries of the logs of all desks.
fn logs_of(alloc: Global, desks: &[PaddedDesk]) -> Result<Vec<(u64, TaskId)>, OutOfMemory>
    ensures { IfOk result (λ r. r.items ≡ flat_map log_on desks.now) }
{
    let mut log = Vec::new(alloc);
    for desk in desks {
        log = with_entries(log, (**desk).log.as_slice())?;
    }
    Ok(log)
}

// The tasks of a log.
fn tasks_of(alloc: Global, log: Vec<(u64, TaskId)>) -> Result<Vec<TaskId>, OutOfMemory>
    ensures { IfOk result (λ r. r.items ≡ map (λ ((stamp, t) : ℕ × Task). t) log.items) }
{
    let mut tasks = Vec::new(alloc);
    for entry in log {
        let (_stamp, task) = entry;
        tasks.push(task)?;
    }
    Ok(tasks)
}

// The tasks of a log, in the order of their stamps.
fn in_stamp_order(alloc: Global, log: Vec<(u64, TaskId)>) -> Result<Vec<TaskId>, OutOfMemory>
    ensures { IfOk result (λ r. (stamps : List StampedTask) → log.items ≡ logged stamps
        → AreInStampOrder stamps r.items) }
{
    let mut log = log;
    log.sort_unstable_by_key(|entry| entry.0);
    tasks_of(alloc, log)
}

/// Runs a job as `run` does, without a preload, and also returns a trace: all claims of the passes of its closed table
/// in the order of their stamps. That is a legal order of the tasks that run. It may wait.
pub fn run_traced<R: Threads + Wait + Sync, G: Gate>(
    alloc: Global,
    rt: &R,
    prepared: Prepared,
    gate: &G,
) -> Result<(Vec<TaskId>, Closed), OutOfMemory>
    requires { prepared.job.preloaded ≡ false }
    ensures job { IfOk result (λ (trace, closed). closed.job ≡ prepared.job) }
    ensures passes { IfOk result (λ (trace, closed). closed.passes ≡ prepared.workers) }
    ensures quiet { IfOk result (λ (trace, closed). HaveNoWork closed.shards) }
    ensures ran { IfOk result (λ (trace, closed).
        HasTheMeaning closed.job.matched closed.job.given (joined closed.records).state) }
    ensures handed { IfOk result (λ (trace, closed).
        WereHandedInputs closed.job.matched closed.job.given (joined closed.records).state.claims
        (joined_handed closed.records)) }
    ensures gate { IfOk result (λ (trace, closed).
        AreLetThrough (G.lets gate.now) prepared.workers (joined closed.records).state.claims) }
    ensures trace { IfOk result (λ (trace, closed). IsTraceOf closed trace.items) }
    ensures order { IfOk result (λ (trace, closed). IsWholeOrder prepared.job.matched prepared.job.given trace.items) }
{
    all_passes_stay_all();
    an_idle_pass_is_a_workers_pass();
    a_quiet_close_has_the_meaning();
    a_quiet_close_has_an_order_of_what_ran();
    let Prepared {
        table,
        mut desks,
        room,
    } = prepared;
    team(rt, &table, &mut desks, gate, true);
    let log = logs_of(alloc, desks.as_slice())?;
    let passes = passes_of(desks, room)?;
    let tasks = in_stamp_order(alloc, log)?;
    Ok((tasks, table.close(passes)))
}
