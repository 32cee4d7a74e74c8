//! Whether a job is consistent, with its counts, or its first fault. Each edge out of a task must be an edge into its
//! target, and the other way round, and all that tasks need must exist. One walk over the tasks accepts a plan if the
//! walk shows that it is consistent.
#![tactic(auto)]

mod accepted_flow;
mod accepting;
mod accepting_flows;
mod accepting_tasks;
mod class_form;
mod counted;
mod counting;
mod counting_outs;
mod dependences;
mod edges;
mod fault;
mod flow_at;
mod flows;
mod harmless;
mod ins;
mod laws;
mod matching;
mod outs;
mod phase;
mod place_set;
mod refusing;
mod roots;
mod rows;
mod sending;
mod sent;
mod taking;
mod tally;
mod tasks;

pub use accepting::accepts;
pub use fault::{MatchCode, MatchFault, MatchRefusal};
pub use laws::{
    a_consistent_plan_has_no_fault, a_plan_that_passes_is_consistent,
    all_edges_and_items_are_counted,
};
pub use matching::match_edges;
pub use phase::Phase;
pub use place_set::PlaceSet;
pub use roots::root_count;
