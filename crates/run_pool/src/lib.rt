//! A run of a job by a team of workers: `prepare` makes it ready, with a preload by reserving all memory first. `run`
//! runs all tasks and closes the table, and `run_traced` also returns the order of the claims.
#![tactic(auto)]

mod bytes;
mod desk;
mod elements;
mod prepared;
mod preparing;
mod running;
mod seating;
mod settings;
mod tracing;
mod workers;

pub use bytes::preload_bytes;
pub use desk::Desk;
pub use prepared::Prepared;
pub use preparing::{PrepareFault, lay_out, prepare};
pub use running::run;
pub use settings::Settings;
pub use tracing::run_traced;
pub use workers::team;
