//! Traces: the text of a job's tasks in an order in which they ran, how it is read, and its first fault.
#![tactic(auto)]

mod cutting;
mod fault;
mod laws;
mod naming;
mod numbers;
mod reading;
mod rows;
mod spelling;
mod text;

pub use fault::{TraceCode, TraceFault, TraceRefusal, trace_too_long};
pub use laws::a_text_has_one_first_fault;
pub use reading::{Reading, read_rows, read_trace};
pub use text::trace_text;
