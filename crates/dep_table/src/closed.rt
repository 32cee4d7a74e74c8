//! The close of a table.

ghost use Rattle.std.specs.Prelude.{◌≡◌, List, [], length, map, true};
ghost use Rattle.ptg_base.specs.Lists.{IsIn};
ghost use Rattle.ptg_base.specs.Task.{Task};
ghost use Rattle.shard_meaning.specs.Calm.{HaveNoWork};
ghost use Rattle.table_rule.specs.Changes.{both};
ghost use Rattle.table_rule.specs.Plays.{HasName};
ghost use Rattle.table_rule.specs.Records.{joined};
ghost use Rattle.dep_table.specs.ClosedTables.{records_of, shards_of};
ghost use Rattle.dep_table.specs.Closing.{AreAllPasses, IsClosedAt, IsLastPass};
ghost use Rattle.dep_table.specs.StampOrders.{AreInStampOrder, IsClaimOrder, joined_stamps};
ghost use Rattle.dep_table.specs.Tables.{id_of, job_of};
ghost use Rattle.dep_table.specs.Views.{PassView, shown};

use crate::closed_records::ClosedRecords;
use crate::closing_room::ClosingRoom;
use crate::pass::Pass;
use crate::table::DepTable;
use dep_shard::Shard;
use shard_answer::Room;
use std::marker::Model;
use table_rule::{TableJob, a_pass_with_all_names_is_alone, all_passes_stay_all};

/// A table that no pass shares any more: its shards hold their parts of what its passes did together. Contracts see its
/// job, the records of its passes, its shards, and the number of passes that it was closed with. Only `DepTable::close`
/// makes one.
#[derive(Drop)]
pub struct Closed {
    pub(crate) shards: Vec<Shard>,
    pub(crate) job: TableJob,
    pub(crate) records: ClosedRecords,
    pub(crate) passes: usize,
    pub(crate) rows: Room,
}

impl Model for Closed {
    ghost use Rattle.term_core.specs.contracts.expr.Expr as expr;
    ghost use Rattle.term_core.specs.contracts.body.Block as block;
    ghost use Rattle.std.specs.Coded.{codes};
    ghost use Rattle.dep_table.specs.ClosedTables.{ClosedView};
    ghost use Rattle.dep_table.specs.Closing.{IsClosedTable};

    ghost Value = { ClosedView };

    ghost coded = { Prim.hlevel (codes, expr.the_row.coded, block.the_row.coded) };

    ghost view = { λ c.
        record { job = c.job; records = c.records.records; shards = c.shards.items; passes = c.passes } };

    ghost invariant = { λ c. IsClosedTable c.job c.records.records c.shards.items c.rows };
}

impl DepTable {
    // Joins two passes to one that has the records of both.
    fn join(&self, pass: Pass, other: Pass) -> Pass
        requires of { (pass.table ≡ id_of self.now) × (other.table ≡ id_of self.now) }
        requires named { HasName (shown pass) }
        requires no_shard { other.me.1 ≡ [] }
        ensures of { result.table ≡ pass.table }
        ensures me { result.me ≡ (both (shown pass) (shown other), pass.me.1) }
    {
        let Pass { mut seat, stamp } = pass;
        let Pass {
            seat: gone,
            stamp: _stamp,
        } = other;
        self.words.join(&mut seat, gone);
        Pass { seat, stamp }
    }

    // Joins all passes to one, which has seen quiet if one of them has.
    fn join_all(&self, mut passes: Vec<Pass>) -> Pass
        requires { AreAllPasses (id_of self.now) passes.items }
        ensures last { IsLastPass (id_of self.now) result (map shown passes.items) }
        ensures quiet { (p : PassView) → IsIn p passes.items → (shown p).quiet ≡ true → (shown result).quiet ≡ true }
    {
        all_passes_stay_all();
        let mut last = passes.pop().unwrap();
        while let Some(pass) = passes.pop() {
            last = self.join(pass, last);
        }
        last
    }

    // Ends a table at its last pass, to which this many passes with these records were joined.
    fn end(self, pass: Pass, passes: usize, records: ClosedRecords) -> Closed
        requires { IsLastPass (id_of self) pass records.records }
        ensures job { result.job ≡ job_of self }
        ensures records { records_of result ≡ records.records }
        ensures passes { result.passes ≡ passes }
        ensures at { IsClosedAt (job_of self) records.records (shards_of result) }
        ensures order { (ts : List Task) → AreInStampOrder (joined_stamps records.records) ts
            → IsClaimOrder (job_of self).matched (joined records.records).state ts }
        ensures quiet { (shown pass).quiet ≡ true → HaveNoWork (shards_of result) }
    {
        a_pass_with_all_names_is_alone();
        let DepTable {
            words,
            job,
            closing,
            events: _events,
        } = self;
        let Pass {
            seat,
            stamp: _stamp,
        } = pass;
        let ClosingRoom { shards, rows } = closing;
        let shards = words.close(seat, shards);
        Closed {
            shards,
            job,
            records,
            passes,
            rows,
        }
    }

    /// Closes the table with all its passes. It takes no memory. The closed table shows the passes' records, and its
    /// shards hold what they did together: a sound state, in which each claimed task was handed its inputs. All their
    /// claims, in the order of their stamps, are a legal order of the plan. If one of the passes has seen quiet, no
    /// shard has work.
    pub fn close(self, passes: Vec<Pass>) -> Closed
        requires { AreAllPasses (id_of self) passes.items }
        ensures job { result.job ≡ job_of self }
        ensures records { records_of result ≡ map shown passes.items }
        ensures passes { result.passes ≡ length passes.items }
        ensures at { IsClosedAt (job_of self) (records_of result) (shards_of result) }
        ensures order { (ts : List Task) → AreInStampOrder (joined_stamps (records_of result)) ts
            → IsClaimOrder (job_of self).matched (joined (records_of result)).state ts }
        ensures quiet { (p : PassView) → IsIn p passes.items → (shown p).quiet ≡ true → HaveNoWork (shards_of result) }
    {
        let count = passes.len();
        let records = ClosedRecords::of(passes.as_slice());
        let last = self.join_all(passes);
        self.end(last, count, records)
    }
}
