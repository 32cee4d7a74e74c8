//! Laws of data files that no program cites: the data and the first fault follow from the whole list of records, with
//! each code judged alone.
#![tactic(auto)]

mod laws;

pub use laws::{
    data_are_by_records, faults_are_first, integers_have_64_bits, the_first_code_is_the_fault,
};
