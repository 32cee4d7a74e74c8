//! What a worker needs of a table of dependences (`Board`), and the record of what a pass has done (`PassRecord`). Each
//! result of a call comes with its cause, so that a contract says what the pass found.
#![tactic(auto)]

mod answers;
mod board;
mod record;

pub use answers::{Claim, Scan, Sent};
pub use board::Board;
pub use record::PassRecord;
