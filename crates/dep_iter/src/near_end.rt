//! The near end of the edges of a task.

ghost use Rattle.std.specs.Prelude.{◌≡◌, ◌≤◌, length, Some};
ghost use Rattle.ptg_base.specs.Limits.{most_params};
ghost use Rattle.dep_iter.specs.Links.{edge_of_link, link};

use ptg_base::{Edge, TaskId};
use term_core::Direction;

/// The task whose edges in one direction are walked.
#[derive(Clone, Copy)]
pub struct NearEnd<'a> {
    /// The direction.
    pub direction: Direction,
    /// The task.
    pub task: &'a TaskId,
}

impl NearEnd<'_> {
    // The edge between flow `near` of the task and flow `far_flow` of the task of this class with these parameters. It
    // is built in place.
    pub(crate) fn edge(self, near: u8, class: u32, far_flow: u8, params: &[i64]) -> Option<Edge>
        requires { length params.now ≤ most_params }
        ensures { result ≡ Some (edge_of_link self.entry.direction self.entry.task.now
            (link near class far_flow params.now)) }
    {
        match self.direction {
            Direction::In => Some(Edge {
                from: TaskId::new(class, params),
                out_flow: far_flow,
                to: self.task.copy(),
                in_flow: near,
            }),
            Direction::Out => Some(Edge {
                from: self.task.copy(),
                out_flow: near,
                to: TaskId::new(class, params),
                in_flow: far_flow,
            }),
        }
    }
}
