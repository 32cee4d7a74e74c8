//! Laws of the type check that no program cites: the first of many faults is the least, and a job has a plan or a first
//! fault. What fits has no fault, and what is resolved names only what is seen.
#![tactic(auto)]

mod faults;
mod resolved_parts;

pub use faults::{
    a_job_has_a_plan_or_a_fault, classes_without_faults_are_resolved, each_body_is_read,
    flows_without_faults_are_resolved, names_without_faults_are_resolved,
    the_first_fault_is_the_least,
};
pub use resolved_parts::{
    a_flow_that_fits_has_no_fault, types_of_one_number_have_one_name,
    what_is_resolved_has_no_fault, what_is_resolved_is_closed,
};
