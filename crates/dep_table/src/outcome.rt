//! The answer of a closed table.

ghost use Rattle.std.specs.Prelude.{◌≡◌, IfOk, IsOk, true};
ghost use Rattle.flow_meaning.specs.Answer.{answer};
ghost use Rattle.dep_table.specs.ClosedTables.{shards_of};
ghost use Rattle.shard_meaning.specs.Calm.{HaveNoWork};
ghost use Rattle.dep_table.specs.Receipts.{receipt_of};

use crate::answered::{RunAnswer, RunData};
use crate::closed::Closed;
use crate::receipt::Receipt;
use flow_meaning::Outcome;
use ptg_base::OutOfMemory;
use shard_answer::outcome_of;
use table_rule::TableJob;

impl Closed {
    /// The answer of the job, and a receipt that shows it. The table must have been closed after the run had ended. No
    /// tile is copied. A preloaded table has the memory.
    pub fn outcome(self) -> Result<(Outcome, Receipt), OutOfMemory>
        requires { HaveNoWork (shards_of self) }
        ensures answer { IfOk result (λ (outcome, receipt). outcome ≡ answer self.job.matched self.job.given) }
        ensures receipt { IfOk result (λ (outcome, receipt). receipt ≡ receipt_of self outcome) }
        ensures preloaded { self.job.preloaded ≡ true → IsOk result }
    {
        let Closed {
            shards,
            job,
            records: _records,
            passes,
            rows,
        } = self;
        let TableJob {
            matched,
            given,
            shards: count,
            preloaded,
        } = job;
        let data = RunData::of(&given);
        let outcome = outcome_of(&matched, given, shards, rows)?;
        let answer = RunAnswer::of(&outcome);
        let receipt = Receipt {
            matched,
            shards: count,
            passes,
            preloaded,
            data,
            answer,
        };
        Ok((outcome, receipt))
    }
}
