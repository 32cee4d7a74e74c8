//! A run by many workers, from the first task to the close of its table.

ghost use Rattle.std.specs.Prelude.{◌≡◌, ◌≤◌, [], true, length, map, vec_capacity, IfOk, IsOk, OnErr, OnOk};
ghost use Rattle.ptg_base.specs.Lists.{IsIn};
ghost use Rattle.shard_meaning.specs.Calm.{HaveNoWork};
ghost use Rattle.work_board.specs.Handed.{WereHandedInputs};
ghost use Rattle.table_rule.specs.Records.{joined, joined_handed};
ghost use Rattle.dep_table.specs.ClosedMeaning.{HasTheMeaning};
ghost use Rattle.run_pool.specs.Gates.{AreLetThrough};
ghost use Rattle.run_pool.specs.Seated.{HaveAnswered, IsDone, OneWasRefused, PaddedDesk, pass_on};

use crate::desk::Desk;
use crate::prepared::Prepared;
use crate::seating::PaddedDesk;
use crate::workers::team;
use dep_table::{Closed, Pass, a_quiet_close_has_the_meaning, an_idle_pass_is_a_workers_pass};
use ptg_base::OutOfMemory;
use std::sync::Wait;
use std::thread::Threads;
use table_rule::all_passes_stay_all;
use worker_core::Gate;

// The passes of workers that have a result on their desks. Out of memory if and only if one of the workers was.
pub(crate) fn passes_of(desks: Vec<PaddedDesk>, room: Vec<Pass>) -> Result<Vec<Pass>, OutOfMemory>
    requires answered { HaveAnswered desks.items }
    requires room { (room.items ≡ []) × (length desks.items ≤ vec_capacity room) }
    ensures passes { IfOk result (λ passes. passes.items ≡ map pass_on desks.items) }
    ensures done { OnOk result ((d : PaddedDesk) → IsIn d desks.items → IsDone d) }
    ensures refused { OnErr result (OneWasRefused desks.items) }
{
    let mut passes = room;
    for desk in desks {
        let Desk {
            pass,
            hands: _hands,
            bench: _bench,
            answer,
            log: _log,
        } = desk.into_inner();
        let _worked = answer.unwrap()?;
        passes.push_reserved(pass);
    }
    Ok(passes)
}

/// Runs a job with the workers that were made ready, and closes its table with a pass for each worker. No shard has
/// work then. By the records of these passes, the tasks that run were claimed, each once. Their items were sent, each
/// once and with the tile that its task leaves. Each claimed task was handed its inputs, and the gate has let one of the
/// workers run it. A preloaded run is never refused memory. It may wait.
pub fn run<R: Threads + Wait + Sync, G: Gate>(
    rt: &R,
    prepared: Prepared,
    gate: &G,
) -> Result<Closed, OutOfMemory>
    ensures job { IfOk result (λ closed. closed.job ≡ prepared.job) }
    ensures passes { IfOk result (λ closed. closed.passes ≡ prepared.workers) }
    ensures quiet { IfOk result (λ closed. HaveNoWork closed.shards) }
    ensures ran { IfOk result (λ closed.
        HasTheMeaning closed.job.matched closed.job.given (joined closed.records).state) }
    ensures handed { IfOk result (λ closed.
        WereHandedInputs closed.job.matched closed.job.given (joined closed.records).state.claims
        (joined_handed closed.records)) }
    ensures gate { IfOk result (λ closed.
        AreLetThrough (G.lets gate.now) prepared.workers (joined closed.records).state.claims) }
    ensures preloaded { prepared.job.preloaded ≡ true → IsOk result }
{
    all_passes_stay_all();
    an_idle_pass_is_a_workers_pass();
    a_quiet_close_has_the_meaning();
    let Prepared {
        table,
        mut desks,
        room,
    } = prepared;
    team(rt, &table, &mut desks, gate, false);
    let passes = passes_of(desks, room)?;
    Ok(table.close(passes))
}
