//! Worlds of ranks, in which an edge between two ranks is a message: definitions and laws. `World`: ranks that send one
//! another messages, run in one thread; `drive` runs it in the order of a seed. `ranks_of` returns the number of a
//! job's messages, and its answer.
#![tactic(auto)]

mod answering;
mod choices;
mod driving;
mod history;
mod laws;
mod leaving;
mod mail;
mod message;
mod posting;
mod room;
mod running;
mod running_task;
mod world;

pub use answering::ranks_of;
pub use driving::drive;
pub use laws::{
    a_message_is_an_edge_of_its_own, a_quiet_world_has_the_meaning, a_task_runs_on_its_inputs,
    quiet_worlds_are_quiescent,
};
pub use message::Message;
pub use world::World;
