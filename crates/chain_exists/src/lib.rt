//! Laws of certificates that no program cites: every job has one, which goes with the job's answer. Lemmas show that it
//! has no other.
#![tactic(auto)]

mod laws;

pub use laws::{a_certificate_fits_the_answer, every_job_has_a_certificate};
