//! The dependency table that workers share (`DepTable`): its opening, with or without all memory reserved first, its
//! passes and their turns, and its close with the answer and the receipt. It implements `Board`.
#![tactic(auto)]

mod answered;
mod board;
mod calls;
mod closed;
mod closed_records;
mod closing_room;
mod crediting;
mod delivery;
mod job;
mod needs;
mod opening;
mod outcome;
mod pass;
mod preloaded;
mod quiet;
mod receipt;
mod scanning;
mod sending;
mod shard_steps;
mod table;
mod threads;
mod tries;
mod turn;

pub use board::an_idle_pass_is_a_workers_pass;
pub use closed::Closed;
pub use pass::Pass;
pub use quiet::{
    a_closed_table_without_work_is_quiescent, a_quiet_close_has_an_order_of_what_ran,
    a_quiet_close_has_the_meaning,
};
pub use receipt::Receipt;
pub use table::DepTable;
pub use threads::{sends_pass, shares_table};
pub use turn::{Busy, Turn};
