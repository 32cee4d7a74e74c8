//! The links of a task, one after another.

ghost use Rattle.std.specs.Prelude.{◌≡◌, ◌+◌, ◌≤◌, [], is_some, length, map, IsTrue, List, slice_get};
ghost use Rattle.std.specs.Iterator.{YieldsFirst};
ghost use Rattle.ptg_base.specs.Limits.{most_flows, most_params};
ghost use Rattle.ptg_base.specs.declared.edge.Edge.{Edge as EdgeValue};
ghost use Rattle.dep_iter.specs.Links.{edge_of_link, fits, links_to};
ghost use Rattle.dep_iter.specs.Walking.{link_item, edges_left, position_fits};
ghost use Rattle.plan_core.specs.declared.target.Target.TheVariants.{Task};

use crate::combining::Combinations;
use crate::item::link_item;
use crate::near_end::NearEnd;
use crate::position::{Position, next_target};
use crate::single::only_edge;
use plan_core::{Arg, Plan, Target};
use ptg_base::{Edge, Item, TaskId};
use std::marker::Model;

/// The links of one target that were not yet yielded.
#[derive(Drop)]
pub(crate) struct TargetLinks {
    near: u8,
    class: u32,
    far_flow: u8,
    params: Combinations,
}

impl Model for TargetLinks {
    ghost use Rattle.std.specs.Prelude.{List, map};
    ghost use Rattle.dep_iter.specs.declared.link.Link.{Link};
    ghost use Rattle.dep_iter.specs.Links.{link};

    ghost Value = { List Link };

    ghost view = { λ t. map (link t.near t.class t.far_flow) t.params };
}

/// A law: a target that fits the plan has at most eight arguments, as many as its class has parameters.
pub fn arguments_at_most(plan: &Plan, class: u32, flow: u8, args: &[Arg])
    requires { IsTrue (fits plan.now (Task class flow args.now)) }
    ensures { length args.now ≤ most_params }
{
    let _ = plan.space(class).params.as_slice();
}

impl TargetLinks {
    // No links.
    pub(crate) fn none() -> TargetLinks
        ensures { result ≡ [] }
    {
        TargetLinks {
            near: 0,
            class: 0,
            far_flow: 0,
            params: Combinations::none(),
        }
    }

    // Replaces the links by those of this flow that a target stands for.
    pub(crate) fn restart(&mut self, plan: &Plan, near: u8, target: &Target, env: &[i64])
        requires { IsTrue (fits plan.now target.now) }
        ensures { self.new ≡ links_to env.now near target.now }
    {
        let Target::Task(class, far_flow, args) = target else {
            self.params.stop();
            return;
        };
        arguments_at_most(plan, *class, *far_flow, args.as_slice());
        self.near = near;
        self.class = *class;
        self.far_flow = *far_flow;
        self.params.restart(args.as_slice(), env);
    }

    // The next link as an edge, if there is one.
    fn first(&self, end: NearEnd) -> Option<Edge>
        ensures { result ≡ slice_get (map (edge_of_link end.entry.direction end.entry.task.now) self.now) 0 }
    {
        match self.params.first() {
            Some(values) => end.edge(self.near, self.class, self.far_flow, values),
            None => None,
        }
    }

    // Takes the next link of the target as an edge.
    fn next(&mut self, end: NearEnd) -> Option<Edge>
        ensures { YieldsFirst (λ left. left)
            (map (edge_of_link end.entry.direction end.entry.task.now) self.old) result
            (map (edge_of_link end.entry.direction end.entry.task.now) self.new) }
    {
        let edge = self.first(end);
        self.params.pass();
        edge
    }

    // Whether a link is left.
    pub(crate) fn has_next(&self) -> bool
        ensures { result ≡ is_some (slice_get self.now 0) }
    {
        self.params.first().is_some()
    }

    // The next link as an item that a task sends, if there is one.
    fn first_item(&self, task: &TaskId) -> Option<Item>
        ensures { result ≡ slice_get (map (link_item task.now) self.now) 0 }
    {
        match self.params.first() {
            Some(values) => link_item(task, self.near, self.class, self.far_flow, values),
            None => None,
        }
    }

    // Takes the next link of the target as an item that a task sends.
    pub(crate) fn next_item(&mut self, task: &TaskId) -> Option<Item>
        ensures { YieldsFirst (λ left. left)
            (map (link_item task.now) self.old) result (map (link_item task.now) self.new) }
    {
        let item = self.first_item(task);
        self.params.pass();
        item
    }
}

// The next edge of a walk over a task's edges in one direction, under its locals. It comes from what is left of the
// target at hand, or from the targets after it.
pub(crate) fn next_edge<'a>(
    plan: &Plan,
    end: NearEnd,
    env: &[i64],
    p: &mut Position<'a>,
    at_hand: &mut TargetLinks,
) -> Option<Edge>
    requires room { p.old.next_flow + length p.old.flows.now ≤ most_flows }
    requires fit { IsTrue (position_fits plan.now p.old) }
    ensures found { YieldsFirst (λ (left : List EdgeValue). left)
        (edges_left end.entry.direction end.entry.task.now env.now at_hand.old p.old) result
        (edges_left end.entry.direction end.entry.task.now env.now at_hand.new p.new) }
    ensures room { p.new.next_flow + length p.new.flows.now ≤ most_flows }
    ensures fit { IsTrue (position_fits plan.now p.new) }
{
    if let Some(edge) = at_hand.next(end) {
        return Some(edge);
    }
    let target = next_target(end.direction, env, p)?;
    if let Some(edge) = only_edge(plan, end, p.flow, target, env) {
        return Some(edge);
    }
    at_hand.restart(plan, p.flow, target, env);
    next_edge(plan, end, env, p, at_hand)
}
