//! Checkers of chains and cycles, which are no part of the program, and laws of certificates.
#![tactic(auto)]

mod chains;
mod cycles;
mod heaviest;
mod laws;
mod levels;
mod sources;

pub use cycles::check_cycle;
pub use heaviest::check_chain;
pub use laws::{
    a_greatest_order_is_whole_without_cycle, a_job_is_complete_without_cycle_and_trap,
    one_certificate, the_checkers_accept_certificates, the_printed_cycle_is_a_cycle,
};
