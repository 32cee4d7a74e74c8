//! Laws of tasks and edges that no program cites: the values of ranges, when each expression of a task has a value, and
//! what a first fault names. Each plan is consistent or has exactly one first fault.
#![tactic(auto)]

mod faults;
mod ranges;
mod well_tasks;

pub use faults::{
    a_first_fault_names_what_exists, a_plan_has_one_first_fault,
    a_plan_is_consistent_or_has_a_first_fault,
};
pub use ranges::{parameters_have_64_bits, values_are_a_progression};
pub use well_tasks::{a_well_task_has_its_values, the_active_targets_are_those_that_are_reached};
