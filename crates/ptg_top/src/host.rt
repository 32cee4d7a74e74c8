//! What every run of a job needs from its caller.

use std::alloc::Global;

/// The runtime that workers wait with, the memory, the gate before each body, and the key with which tables hash tasks.
#[derive(Drop)]
pub struct Host<'a, R, G> {
    pub rt: &'a R,
    pub alloc: Global,
    pub gate: &'a G,
    pub key: u64,
}
