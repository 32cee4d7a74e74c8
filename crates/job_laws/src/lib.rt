//! Laws of verdicts that no program cites: every job has one, its JDF is judged alone, and its data fit its plan. Its
//! names and parameters are spelled as those of a trace.
#![tactic(auto)]

mod laws;

pub use laws::{
    every_job_has_a_verdict, jobs_are_spelled, the_data_fit_the_plan, the_jdf_is_judged_alone,
};
