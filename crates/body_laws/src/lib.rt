//! Laws of bodies that no program cites: on the names and slots of variables, texts with a fault, trap words, and
//! larger budgets.
#![tactic(auto)]

mod laws;

pub use laws::{
    a_slot_for_each_variable, another_name_changes_nothing, more_units_change_nothing, names_agree,
    traps_have_their_words, variables_are_counted_in_the_text,
};
