//! A worker (`work`, `work_logged`): it claims ready tasks of any `Board`, runs each and sends its items, until all is
//! quiet. A `Gate` is passed before each body; `Always` is the one that never waits.
#![tactic(auto)]

mod claiming;
mod ending;
mod gate;
mod log;
mod next;
mod outbox;
mod patience;
mod post;
mod running;
mod scans;
mod sending;
mod sleeping;
mod stealing;
mod waiting;
mod worker;

pub use gate::{Always, Gate};
pub use worker::{Worked, work, work_logged};
