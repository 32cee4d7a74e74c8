//! The job of a table, and the shards of its tasks.

ghost use Rattle.std.specs.Prelude.{◌≡◌, ◌<◌};
ghost use Rattle.dep_iter.specs.Tasks.{IsTask};
ghost use Rattle.dep_table.specs.Tables.{job_of};
ghost use Rattle.table_rule.specs.Rule.{placement_of};

use crate::table::DepTable;
use coll_data::Given;
use dep_iter::{Matched, TaskAt};
use ptg_base::TaskId;
use range_space::Numbers;
use shard_calls::shard_at;

impl DepTable {
    /// The plan of the job.
    pub fn matched(&self) -> &Matched
        ensures { result.now ≡ (job_of self.now).matched }
    {
        &self.job.matched
    }

    /// The data of the job.
    pub fn given(&self) -> &Given
        ensures { result.now ≡ (job_of self.now).given }
    {
        &self.job.given
    }

    /// The number of shards.
    pub fn shards(&self) -> u32
        ensures { result ≡ (job_of self.now).shards }
    {
        self.job.shards
    }

    /// Whether all memory was reserved before the first step.
    pub fn is_preloaded(&self) -> bool
        ensures { result ≡ (job_of self.now).preloaded }
    {
        self.job.preloaded
    }

    /// The number of the shard of a task.
    pub fn shard_of(&self, t: &TaskId) -> u32
        requires { IsTask (job_of self.now).matched t.now }
        ensures number { result ≡ placement_of (job_of self.now) t.now }
        ensures within { result < (job_of self.now).shards }
    {
        let plan = self.job.matched.plan();
        self.shard_at(&TaskAt::of(plan, t, &mut Numbers::new()))
    }

    // The number of the shard of a task with its locals.
    pub(crate) fn shard_at(&self, at: &TaskAt) -> u32
        requires { at.now.plan.now ≡ (job_of self.now).matched }
        ensures number { result ≡ placement_of (job_of self.now) at.now.task.now }
        ensures within { result < (job_of self.now).shards }
    {
        self.job.matched.plan_is_consistent();
        shard_at(at, self.job.shards as usize) as u32
    }
}
