//! What a shard holds at a moment of a run, and how each event changes it: definitions and laws. Also that a job and a
//! shard may cross threads.
#![tactic(auto)]

mod calm;
mod holder;
mod items;
mod moments;
mod opening;
mod reserves;
mod shares;
mod threads;

pub use calm::{a_calm_moment_is_at_rest, shards_without_work_are_calm};
pub use holder::{a_claim_hands_out_the_inputs, the_numbers_of_a_shard_are_bounded};
pub use items::items_carry_tiles_of_their_types;
pub use moments::{finished_tasks_stay_finished, order_changes_no_shard, running_tasks_may_send};
pub use opening::the_opening_shards_hold_the_opening;
pub use reserves::{
    a_claim_keeps_the_reserve, a_send_of_a_write_back_keeps_the_reserve,
    a_send_of_an_edge_keeps_the_reserve, an_end_keeps_the_reserve, the_reserve_is_enough,
};
pub use shares::{
    a_claim_changes_its_own_shard, a_send_of_a_write_back_changes_its_own_shard,
    a_send_of_an_edge_changes_its_own_shard, an_end_changes_its_own_shard,
    nothing_changes_without_an_event,
};
pub use threads::{sends_shard, shares_given, shares_matched, shares_plan, shares_shard};
