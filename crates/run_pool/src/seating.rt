//! The desks of the workers of a run.

ghost use Rattle.std.specs.Prelude.{◌≡◌, ◌<◌, [], None, IfOk, length};
ghost use Rattle.crossbeam_utils.specs.Padded.{padded_value};
ghost use Rattle.ptg_base.specs.Lists.{IsIn};
ghost use Rattle.ready_deques.specs.Hands.{Account};
ghost use Rattle.task_run.specs.Bench.{IsBenchOf};
ghost use Rattle.table_rule.specs.Changes.{first_pass};
ghost use Rattle.dep_table.specs.Passes.{IsPassOf};
ghost use Rattle.dep_table.specs.Tables.{id_of, job_of};
ghost use Rattle.dep_table.specs.Views.{shown};
ghost use Rattle.run_pool.specs.Seated.{AreSeated, log_on};

use crate::desk::Desk;
use crossbeam_utils::CachePadded;
use dep_iter::Matched;
use dep_table::{DepTable, Pass};
use ptg_base::OutOfMemory;
use ready_deques::Hands;
use std::alloc::Global;
use table_rule::all_passes_stay_all;
use task_run::Bench;

// A worker's desk, on cache lines of its own.
pub(crate) type PaddedDesk = CachePadded<Desk<Pass>>;

// A desk with this pass and these hands, for tasks of a plan.
fn new_desk(alloc: Global, m: &Matched, pass: Pass, hands: Hands) -> Result<PaddedDesk, OutOfMemory>
    ensures pass { IfOk result (λ d. (padded_value d).pass ≡ pass) }
    ensures hands { IfOk result (λ d. (padded_value d).hands ≡ hands) }
    ensures bench { IfOk result (λ d. IsBenchOf m.now (padded_value d).bench) }
    ensures log { IfOk result (λ d. log_on d ≡ []) }
{
    let bench = Bench::new(alloc, m)?;
    Ok(CachePadded::new(Desk {
        pass,
        hands,
        bench,
        answer: None,
        log: Vec::new(alloc),
    }))
}

// A desk for the worker of each of these hands, with the first pass of a table or one that is split off it.
pub(crate) fn seat_workers(
    alloc: Global,
    table: &DepTable,
    first: Pass,
    hands: Vec<Hands>,
) -> Result<Vec<PaddedDesk>, OutOfMemory>
    requires workers { 0 < length hands.items }
    requires numbered { (h : Account) → IsIn h hands.items → h.number < length hands.items }
    requires pass { IsPassOf (id_of table.now) first × (shown first ≡ first_pass) }
    ensures seated { IfOk result (λ desks. AreSeated (id_of table.now) (job_of table.now).matched desks.items) }
    ensures count { IfOk result (λ desks. length desks.items ≡ length hands.items) }
{
    all_passes_stay_all();
    let mut first = first;
    let mut others = hands;
    let own = others.pop().unwrap();
    let mut desks = Vec::new(alloc);
    for hands in others {
        let pass = table.split(&mut first);
        desks.push(new_desk(alloc, table.matched(), pass, hands)?)?;
    }
    desks.push(new_desk(alloc, table.matched(), first, own)?)?;
    Ok(desks)
}
