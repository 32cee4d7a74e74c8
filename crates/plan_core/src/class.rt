//! Classes of tasks in a plan.

use crate::flow::FlowPlan;
use ptg_base::{Seq, Text};
use term_core::{Body, Expr};

/// Where the tasks of a class would best run: at an element of a collection, given by expressions over their locals.
pub struct AffinityPlan {
    /// The number of the collection.
    pub coll: u32,
    /// An index for each dimension of the collection.
    pub indices: Seq<Expr>,
}

impl Drop for AffinityPlan {
    fn drop(self) {
        let AffinityPlan {
            coll: _coll,
            indices: _indices,
        } = self;
    }
}

/// A class of tasks. Its locals have the numbers of the definitions of its space.
pub struct ClassPlan {
    pub name: Text,
    pub affinity: AffinityPlan,
    /// Its flows, in the text's order.
    pub flows: Seq<FlowPlan>,
    /// The priority of its tasks: a hint only.
    pub priority: Option<Expr>,
    pub body: Body,
    /// The words of the body's traps, by their numbers.
    pub trap_words: Seq<Text>,
}

impl Drop for ClassPlan {
    fn drop(self) {
        let ClassPlan {
            name: _name,
            affinity: _affinity,
            flows: _flows,
            priority: _priority,
            body: _body,
            trap_words: _trap_words,
        } = self;
    }
}
