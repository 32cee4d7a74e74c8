//! The whole program (`ptg_main`): it carries out the command that the arguments form, over any files and any sink, and
//! prints its verdict.
#![tactic(auto)]

mod acting;
mod certifying;
mod checking;
mod command;
mod consistent;
mod ended;
mod hash_key;
mod host;
mod jdf_file;
mod judge;
mod printing;
mod program;
mod ranking;
mod reading;
mod replaying;
mod running;
mod showing;
mod status;
mod summing;
mod table_run;
mod tracing;
mod verdict;

pub use ended::Ended;
pub use program::ptg_main;
pub use status::Status;
pub use verdict::{Finding, RanBy, Verdict};
