//! A task that runs, and the world in which it does.

use crate::history::History;
use coll_data::Given;
use dep_iter::{Matched, TaskAt};

// A task that runs, with its rank, and the world that it began in: its job, its number of ranks, and what had happened.
#[derive(Drop)]
pub struct RunningTask<'a> {
    pub(crate) matched: &'a Matched,
    pub(crate) given: &'a Given,
    pub(crate) history: &'a History,
    pub(crate) ranks: usize,
    pub(crate) task: &'a TaskAt<'a>,
    pub(crate) rank: usize,
}
