//! Laws of runs that no program cites: on the event machine, what shards hold, the table's rule, greatest legal orders,
//! worlds of ranks, and traces.
#![tactic(auto)]

mod greatest_orders;
mod machine;
mod rank_worlds;
mod rule;
mod shards;
mod trace_texts;

pub use greatest_orders::{a_greatest_order_has_the_tasks_that_run, no_legal_order_has_more};
pub use machine::{
    a_claim_takes_its_own_entry, claims_are_a_legal_order, nothing_is_undone,
    sound_states_are_reached, tiles_have_the_sizes_of_their_flows,
};
pub use rank_worlds::{events_keep_worlds_sound, world_events_are_machine_events};
pub use rule::{
    a_taken_turn_tells_what_its_shard_had, quiet_is_seen_for_good, the_words_stay_small,
};
pub use shards::{
    a_place_is_written_once, an_edge_finds_its_target, events_keep_moments_sound,
    the_ready_tasks_are_counted,
};
pub use trace_texts::{
    a_task_may_follow_finished_ones, a_text_is_that_of_one_list, a_trace_is_the_text_of_its_list,
    every_job_has_a_whole_order, every_text_has_a_fault_or_is_a_trace,
    the_text_of_a_whole_order_has_no_fault,
};
