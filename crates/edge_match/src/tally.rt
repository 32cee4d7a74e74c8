//! What the walk over the tasks has counted.

use crate::ins::Ins;
use crate::outs::Outs;

/// What was counted of the edges into tasks, and of what tasks send.
#[derive(Drop)]
pub(crate) struct Tally {
    pub(crate) ins: Ins,
    pub(crate) outs: Outs,
}
