//! What one thread holds while it runs a job.

use crate::state::State;
use indexmap::IndexMap;
use ptg_base::TaskId;

// A run, and the tasks that are running in it, in the order of their claims.
#[derive(Drop)]
pub(crate) struct Runner {
    pub(crate) run: State,
    pub(crate) running: Vec<TaskId>,
    // The goals of the tasks that are not claimed and to which an edge was sent.
    pub(crate) goals: IndexMap<TaskId, u32>,
}
