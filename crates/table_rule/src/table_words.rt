//! The words and the shards of a table.

ghost use Rattle.std.specs.Prelude.{◌≡◌, ◌<◌, ◌≤◌};
ghost use Rattle.ptg_base.specs.Limits.{most_shards};
ghost use Rattle.table_rule.specs.Words.{word_count};

use crate::law::Law;
use crate::table_job::TableJob;
use atomic_table::Table;
use dep_shard::Shard;
use std::alloc::Global;
use work_board::PassRecord;

/// The words and the shards of a table, under its rule. Its methods are the only steps on them: each is one kind of
/// step and keeps the rule. Contracts see which table it is, and its job.
#[derive(Drop)]
pub struct TableWords {
    pub(crate) table: Table<Shard, PassRecord, TableJob, Law, Global>,
    pub(crate) shards: u32,
    ghost counted: { shards ≡ table.shared.key.shards },
    ghost sized: { (table.shared.table_id.words ≡ word_count table.shared.key.shards)
        × (table.shared.table_id.slots ≡ table.shared.key.shards) × (0 < table.shared.key.shards)
        × (table.shared.key.shards ≤ most_shards) },
}
