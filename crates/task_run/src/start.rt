//! A task that starts, with its job.

ghost use Rattle.plan_data.specs.Fit.{DataFit};
ghost use Rattle.dep_iter.specs.Consistent.{IsConsistent};
ghost use Rattle.task_run.specs.OneStart.{IsConsistent-prop};

use coll_data::Given;
use dep_iter::TaskAt;

/// A task of a consistent job, and the data of the job.
#[derive(Drop)]
pub struct Start<'a> {
    /// The task, with its plan and its locals.
    pub at: &'a TaskAt<'a>,
    /// The data.
    pub given: &'a Given,
    pub ghost consistent: { IsConsistent at.now.plan.now } by { IsConsistent-prop at.now.plan.now },
    pub ghost fit: { DataFit at.now.plan.now given.now },
}
