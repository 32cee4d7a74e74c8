//! New tables of jobs.

ghost use Rattle.std.specs.Prelude.{◌≡◌, IfOk, IfSome};
ghost use Rattle.table_rule.specs.Changes.{first_pass};
ghost use Rattle.dep_table.specs.Passes.{IsPassOf};
ghost use Rattle.dep_table.specs.Tables.{id_of, job_of as job_in};
ghost use Rattle.dep_table.specs.Views.{shown};

use dep_table::{DepTable, Pass};
use job_stages::job_of_texts;
use ptg_base::{MOST_SHARDS, OutOfMemory};
use sample_jobs::Job;
use std::alloc::Global;

/// How a table is made.
#[derive(Clone, Copy)]
pub struct Make {
    pub shards: u32,
    pub preload: bool,
}

/// A table of the job of two texts, with its first pass. None if the job is not consistent or the number of shards is
/// not within its limits.
pub fn table_of(
    alloc: Global,
    texts: &Job,
    make: Make,
) -> Result<Option<(DepTable, Pass)>, OutOfMemory>
    ensures pass { IfOk result (λ o. IfSome o (λ (table, pass).
        IsPassOf (id_of table) pass × (shown pass ≡ first_pass))) }
    ensures preloaded { IfOk result (λ o. IfSome o (λ (table, pass). (job_in table).preloaded ≡ make.preload)) }
{
    if make.shards == 0 || make.shards > MOST_SHARDS {
        return Ok(None);
    }
    let Some((matched, given)) = job_of_texts(alloc, texts.jdf, texts.data)? else {
        return Ok(None);
    };
    let opened = DepTable::open(alloc, matched, given, make.shards, make.preload, 0)?;
    Ok(Some(opened))
}
