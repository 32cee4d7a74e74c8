//! A run on one thread, event by event: the plain program that tests compare with.
#![tactic(auto)]

mod arrivals;
mod body;
mod claiming;
mod end;
mod goals;
mod history;
mod inputs;
mod laws;
mod one_thread;
mod outputs;
mod possible;
mod runner;
mod sending;
mod sent_items;
mod state;

pub use laws::{calls_are_events, items_of_ctl_flows_carry_no_tile};
pub use one_thread::run_one;
pub use state::State;
