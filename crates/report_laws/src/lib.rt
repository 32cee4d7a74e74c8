//! Laws of what is printed that no program cites: the tile beside a place is the one at its index, and the names in the
//! rows of an answer are those of its plan.
#![tactic(auto)]

mod places;
mod row_names;

pub use places::{a_place_has_one_index, the_place_printed_is_the_place_read};
pub use row_names::{answers_have_rows_of_their_plan, tasks_have_classes_of_their_plan};
