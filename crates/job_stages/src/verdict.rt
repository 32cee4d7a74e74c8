//! The verdict on a job.

use coll_data::{DataFault, Given};
use dep_iter::Matched;
use edge_match::MatchFault;
use jdf_lex::JdfFault;
use plan_core::Plan;

/// What the text of a JDF and the text of its data come to.
#[derive(Drop)]
pub enum JobVerdict {
    /// The JDF has this fault.
    Jdf(JdfFault),
    /// The data have this fault.
    Data(DataFault),
    /// The plan is not consistent, and this is its first fault. The plan has the names of the fault's class and flow.
    Inconsistent(Plan, MatchFault),
    /// The plan is consistent; these are its data.
    Consistent(Matched, Given),
}
