//! The opening of a table's words and shards.

ghost use Rattle.std.specs.Prelude.{◌≡◌, ◌≤◌, [], IfOk};
ghost use Rattle.ptg_base.specs.Limits.{most_shards};
ghost use Rattle.table_rule.specs.Changes.{first_pass};
ghost use Rattle.table_rule.specs.Opening.{AreOpeningWords, IsOpening};
ghost use Rattle.table_rule.specs.Seats.{seat_table, seated, words_job, words_table};

use crate::law::Law;
use crate::pass_seat::PassSeat;
use crate::rules::the_rule_holds_before_the_first_step;
use crate::table_job::TableJob;
use crate::table_words::TableWords;
use crate::words::{STRIDE, live_index};
use atomic_table::{Refused, Seat, Table};
use dep_shard::Shard;
use ptg_base::OutOfMemory;
use std::alloc::Global;
use work_board::PassRecord;

/// The words of a new table with this many shards, whose live word is `live`.
pub fn opening_words(alloc: Global, shards: u32, live: u64) -> Result<Vec<u64>, OutOfMemory>
    requires { shards ≤ most_shards }
    ensures { IfOk result (λ v. AreOpeningWords shards live v.items) }
{
    let mut words = vec![in alloc; 0; STRIDE * (shards as usize + 3)]?;
    words[live_index(shards)] = live;
    Ok(words)
}

impl TableWords {
    /// A table for this job with these words and shards, and the seat of its first pass.
    pub fn new(
        alloc: Global,
        words: Vec<u64>,
        shards: Vec<Shard>,
        job: &TableJob,
    ) -> Result<(TableWords, PassSeat), OutOfMemory>
        requires { IsOpening job.now words.items shards.items }
        ensures job { IfOk result (λ (table, seat). words_job table ≡ job.now) }
        ensures of { IfOk result (λ (table, seat). seat_table seat ≡ words_table table) }
        ensures me { IfOk result (λ (table, seat). seated seat ≡ (first_pass, [])) }
    {
        the_rule_holds_before_the_first_step();
        let count = job.shards;
        let laid: Result<
            (
                Table<Shard, PassRecord, TableJob, Law, Global>,
                Seat<Shard, PassRecord>,
            ),
            Refused<Shard, Global>,
        > = Table::new(alloc, words.as_slice(), shards, job);
        match laid {
            Ok((table, seat)) => Ok((
                TableWords {
                    table,
                    shards: count,
                },
                PassSeat { seat },
            )),
            Err(_refused) => Err(OutOfMemory),
        }
    }
}
