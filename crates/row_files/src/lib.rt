//! Rows, each a call with its wanted result, read from a file and tried. The program of rows says what is called.
#![tactic(auto)]

mod call;
mod escapes;
mod files;
mod items;
mod prefixes;
mod report;
mod session;
mod shown;
mod tried;
mod why;
mod worked_row;

pub use call::Call;
pub use session::all_as_wanted;
pub use why::Why;
pub use worked_row::{Printed, RowCall};
