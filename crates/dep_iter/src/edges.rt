//! The edges of a task in one direction, one after another.

ghost use Rattle.std.specs.Prelude.{◌≡◌};
ghost use Rattle.std.specs.Iterator.{YieldsFirst, item_count};
ghost use Rattle.dep_iter.specs.Tasks as tasks;
ghost use Rattle.dep_iter.specs.Tasks.{IsTask};
ghost use Rattle.dep_iter.specs.Directions.{edges_of};
ghost use Rattle.dep_iter.specs.Edges as edges;
ghost use Rattle.dep_iter.specs.Items as items;
ghost use Rattle.dep_iter.specs.WalkLocals.{walk_locals};

use crate::links::{TargetLinks, next_edge};
use crate::locals::Locals;
use crate::near_end::NearEnd;
use crate::position::{Position, start};
use crate::task::{flows_of, locals_of};
use crate::task_at::TaskAt;
use plan_core::Plan;
use ptg_base::{Edge, TaskId};
use std::marker::Model;
use term_core::Direction;

/// An iterator over the edges of a task in one direction. Contracts see it as the list of those not yet yielded. It
/// takes no memory.
#[derive(Drop)]
pub struct TaskEdges<'a> {
    plan: &'a Plan,
    task: TaskId,
    direction: Direction,
    env: Locals<'a>,
    position: Position<'a>,
    at_hand: TargetLinks,
}

impl<'a> Model for TaskEdges<'a> {
    ghost use Rattle.std.specs.Prelude.{◌+◌, ◌≤◌, IsTrue, List, length};
    ghost use Rattle.ptg_base.specs.Limits.{most_flows};
    ghost use Rattle.ptg_base.specs.declared.edge.Edge.{Edge};
    ghost use Rattle.dep_iter.specs.Walking.{edges_left, position_fits};
    ghost use Rattle.dep_iter.specs.WalkLocals.{walk_locals};

    ghost Value = { List Edge };

    ghost view = { λ e. edges_left e.direction e.task (walk_locals e.env) e.at_hand e.position };

    ghost invariant = { λ e.
        (e.position.next_flow + length e.position.flows.now ≤ most_flows)
        × IsTrue (position_fits e.plan.now e.position) };
}

/// The edges into a task.
pub type InEdges<'a> = TaskEdges<'a>;

/// The edges out of a task.
pub type OutEdges<'a> = TaskEdges<'a>;

// The edges of a task in one direction, given its locals.
fn task_edges<'a>(
    plan: &'a Plan,
    t: &TaskId,
    locals: Locals<'a>,
    direction: Direction,
) -> TaskEdges<'a>
    requires task { IsTask plan.now t.now }
    requires locals { walk_locals locals ≡ tasks.locals_of plan.now t.now }
    ensures { result ≡ edges_of direction plan.now t.now }
{
    TaskEdges {
        plan,
        task: t.copy(),
        direction,
        env: locals,
        position: start(flows_of(plan, t)),
        at_hand: TargetLinks::none(),
    }
}

/// The edges into a task, by flow in the text's order; in a gather, the first argument is outermost. They are evaluated
/// lazily.
pub fn in_edges<'a>(plan: &'a Plan, t: &TaskId) -> InEdges<'a>
    requires { IsTask plan.now t.now }
    ensures { result ≡ edges.in_edges plan.now t.now }
{
    task_edges(plan, t, Locals::Own(locals_of(plan, t)), Direction::In)
}

/// The edges out of a task, by flow and dependence in the text's order; in a broadcast, the first argument is
/// outermost. They are evaluated lazily.
pub fn out_edges<'a>(plan: &'a Plan, t: &TaskId) -> OutEdges<'a>
    requires { IsTask plan.now t.now }
    ensures { result ≡ items.out_edges plan.now t.now }
{
    task_edges(plan, t, Locals::Own(locals_of(plan, t)), Direction::Out)
}

impl<'a> TaskAt<'a> {
    /// The edges into the task, in the order of `in_edges`.
    pub fn in_edges(&self) -> InEdges<'a>
        ensures { result ≡ edges.in_edges self.now.plan.now self.now.task.now }
    {
        task_edges(
            self.plan,
            self.task,
            Locals::Lent(self.locals),
            Direction::In,
        )
    }

    /// The edges out of the task, in the order of `out_edges`.
    pub fn out_edges(&self) -> OutEdges<'a>
        ensures { result ≡ items.out_edges self.now.plan.now self.now.task.now }
    {
        task_edges(
            self.plan,
            self.task,
            Locals::Lent(self.locals),
            Direction::Out,
        )
    }
}

impl Iterator for TaskEdges<'_> {
    type Item = Edge;

    ghost next_gives = { YieldsFirst (λ left. left) };

    ghost remaining = { item_count (λ left. left) };

    fn next(&mut self) -> Option<Edge> {
        let end = NearEnd {
            direction: self.direction,
            task: &self.task,
        };
        let env = self.env.as_slice();
        next_edge(self.plan, end, env, &mut self.position, &mut self.at_hand)
    }
}
