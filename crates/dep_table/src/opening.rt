//! The opening of a table.

ghost use Rattle.std.specs.Prelude.{◌≡◌, ◌<◌, ◌≤◌, true, false, IfOk};
ghost use Rattle.ptg_base.specs.Limits.{IsShardCount, most_shards};
ghost use Rattle.plan_data.specs.Fit.{DataFit};
ghost use Rattle.shard_calls.specs.Opened.{AreOpeningShards};
ghost use Rattle.table_rule.specs.Opening.{IsOpening};
ghost use Rattle.dep_table.specs.ClosingRooms.{IsRoomFor};
ghost use Rattle.dep_table.specs.Opened.{HaveOpeningReserve};
ghost use Rattle.dep_table.specs.Passes.{IsFirstPassOf};
ghost use Rattle.dep_table.specs.Tables.{id_of, job_of};

use crate::closing_room::{ClosingRoom, closing_room};
use crate::pass::Pass;
use crate::preloaded::preloaded_shards;
use crate::table::DepTable;
use coll_data::Given;
use crossbeam_utils::sync::EventCount;
use dep_iter::Matched;
use dep_shard::Shard;
use ptg_base::OutOfMemory;
use shard_calls::opened_shards;
use std::alloc::Global;
use table_rule::{TableJob, TableWords, opening_words};

// The room that a table for this job keeps for its close.
fn room_for(alloc: Global, job: &TableJob) -> Result<ClosingRoom, OutOfMemory>
    ensures { IfOk result (IsRoomFor job.now) }
{
    let rows = if job.preloaded {
        job.matched.tasks()
    } else {
        0
    };
    closing_room(alloc, job.shards, rows)
}

// A table with these words and shards, this job and this room for its close, and its first pass.
fn lay(
    alloc: Global,
    words: Vec<u64>,
    shards: Vec<Shard>,
    job: TableJob,
    closing: ClosingRoom,
) -> Result<(DepTable, Pass), OutOfMemory>
    requires opening { IsOpening job words.items shards.items }
    requires fit { DataFit job.matched job.given }
    requires room { IsRoomFor job closing }
    ensures pass { IfOk result (λ (table, pass). IsFirstPassOf (id_of table) pass) }
    ensures job { IfOk result (λ (table, pass). job_of table ≡ job) }
{
    let (words, seat) = TableWords::new(alloc, words, shards, &job)?;
    let table = DepTable {
        words,
        job,
        closing,
        events: EventCount::new(),
    };
    Ok((table, Pass { seat, stamp: 0 }))
}

// The shards of a new table; if it is preloaded, with spares for all that they will receive. Tasks are hashed with this
// key.
fn shards_for(
    alloc: Global,
    m: &Matched,
    shards: u32,
    preload: bool,
    key: u64,
) -> Result<Vec<Shard>, OutOfMemory>
    requires { IsShardCount shards }
    ensures shards { IfOk result (λ v. AreOpeningShards m.now shards v.items) }
    ensures spares { preload ≡ true → IfOk result (λ v. HaveOpeningReserve m.now shards v.items) }
{
    if preload {
        preloaded_shards(alloc, m, shards, key)
    } else {
        opened_shards(alloc, m, shards, key)
    }
}

// A table for this job with these shards, and its first pass.
fn open_table(
    alloc: Global,
    shards: Vec<Shard>,
    job: TableJob,
) -> Result<(DepTable, Pass), OutOfMemory>
    requires count { IsShardCount job.shards }
    requires shards { AreOpeningShards job.matched job.shards shards.items }
    requires spares { job.preloaded ≡ true → HaveOpeningReserve job.matched job.shards shards.items }
    requires fit { DataFit job.matched job.given }
    ensures pass { IfOk result (λ (table, pass). IsFirstPassOf (id_of table) pass) }
    ensures job { IfOk result (λ (table, pass). job_of table ≡ job) }
{
    job.matched.plan_is_consistent();
    let words = opening_words(alloc, job.shards, job.matched.roots())?;
    let closing = room_for(alloc, &job)?;
    lay(alloc, words, shards, job, closing)
}

impl DepTable {
    /// A table for a job, with 1 to 256 shards, and its first pass. Tasks are hashed without a key.
    pub fn new(
        alloc: Global,
        matched: Matched,
        given: Given,
        shards: u32,
    ) -> Result<(DepTable, Pass), OutOfMemory>
        requires fit { DataFit matched given }
        requires some_shards { 0 < shards }
        requires shards_at_most { shards ≤ most_shards }
        ensures pass { IfOk result (λ (table, pass). IsFirstPassOf (id_of table) pass) }
        ensures job { IfOk result (λ (table, pass).
            job_of table ≡ record { matched = matched; given = given; shards = shards; preloaded = false }) }
    {
        DepTable::open(alloc, matched, given, shards, false, 0)
    }

    /// As `new`, with spares in each shard for all that it will receive, and with room for the close. So no later call
    /// of the table is refused memory.
    pub fn new_preloaded(
        alloc: Global,
        matched: Matched,
        given: Given,
        shards: u32,
    ) -> Result<(DepTable, Pass), OutOfMemory>
        requires fit { DataFit matched given }
        requires some_shards { 0 < shards }
        requires shards_at_most { shards ≤ most_shards }
        ensures pass { IfOk result (λ (table, pass). IsFirstPassOf (id_of table) pass) }
        ensures job { IfOk result (λ (table, pass).
            job_of table ≡ record { matched = matched; given = given; shards = shards; preloaded = true }) }
    {
        DepTable::open(alloc, matched, given, shards, true, 0)
    }

    /// As `new_preloaded` if `preload` is set, else as `new`, but tasks are hashed with this key. If it is secret,
    /// whoever writes a job can't choose tasks whose look-ups take long. No clause speaks of it.
    pub fn open(
        alloc: Global,
        matched: Matched,
        given: Given,
        shards: u32,
        preload: bool,
        key: u64,
    ) -> Result<(DepTable, Pass), OutOfMemory>
        requires fit { DataFit matched given }
        requires some_shards { 0 < shards }
        requires shards_at_most { shards ≤ most_shards }
        ensures pass { IfOk result (λ (table, pass). IsFirstPassOf (id_of table) pass) }
        ensures job { IfOk result (λ (table, pass).
            job_of table ≡ record { matched = matched; given = given; shards = shards; preloaded = preload }) }
    {
        let opened = shards_for(alloc, &matched, shards, preload, key)?;
        let job = TableJob {
            matched,
            given,
            shards,
            preloaded: preload,
        };
        open_table(alloc, opened, job)
    }
}
