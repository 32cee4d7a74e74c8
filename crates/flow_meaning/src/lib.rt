//! What a job computes, and the event machine that describes every run: definitions, and laws that the two agree.
#![tactic(auto)]

mod laws;
mod machine;
mod outcome;

pub use laws::{
    a_task_ends_by_its_sources, the_source_of_a_flow_is_the_edge_into_it, what_a_round_finds_stays,
};
pub use machine::{
    a_quiescent_state_has_the_meaning, an_edge_arrives_at_its_target, events_keep_states_sound,
    order_does_not_matter, quiescent_states_are_at_rest, tasks_have_their_inputs,
    the_same_members_are_the_same_counts,
};
pub use outcome::{Outcome, TrapRow, WaitRow};
