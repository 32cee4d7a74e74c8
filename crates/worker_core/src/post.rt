//! What a worker's calls share.

// A worker's number, the board and the gate that it shares with other workers, and the runtime that it waits with.
#[derive(Drop)]
pub(crate) struct Post<'a, R, B, G> {
    pub(crate) rt: &'a R,
    pub(crate) board: &'a B,
    pub(crate) gate: &'a G,
    pub(crate) worker: u32,
}
