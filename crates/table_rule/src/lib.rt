//! The rule that relates the words, the shards and the passes of a table, and one method for each kind of step. It is
//! proved that each step keeps the rule, and the methods are the only steps on a table's words and shards.
#![tactic(auto)]

mod events;
mod law;
mod pass_seat;
mod pass_steps;
mod rules;
mod shard_loan;
mod steps;
mod table_close;
mod table_job;
mod table_open;
mod table_words;
mod turn_steps;
mod word_steps;
mod words;

pub use events::{
    a_turn_is_given_back_with_a_claim, a_turn_is_given_back_with_a_send,
    a_turn_is_given_back_with_an_end,
};
pub use law::Event;
pub use pass_seat::PassSeat;
pub use rules::{
    a_pass_with_all_names_is_alone, all_passes_stay_all, each_task_has_a_shard,
    the_rule_holds_before_the_first_step, the_rule_holds_of_the_joined_records,
};
pub use steps::{
    a_pass_is_split, a_stamp_is_drawn, a_turn_is_given_back, a_turn_is_taken_or_found_taken,
    halt_is_raised, halt_is_read, the_live_word_is_lowered, the_live_word_is_raised,
    the_live_word_is_read, two_passes_are_joined,
};
pub use table_job::TableJob;
pub use table_open::opening_words;
pub use table_words::TableWords;
