//! What a task sends, one item after another.

ghost use Rattle.std.specs.Prelude.{◌≡◌, ◌+◌, ◌≤◌, IsTrue, List, length};
ghost use Rattle.std.specs.Iterator.{YieldsFirst, item_count};
ghost use Rattle.ptg_base.specs.Limits.{most_flows};
ghost use Rattle.ptg_base.specs.declared.edge.Item.{Item as ItemValue};
ghost use Rattle.dep_iter.specs.Items as items;
ghost use Rattle.dep_iter.specs.Walking.{items_left, position_fits};

use crate::item::{link_item, write_item};
use crate::links::{TargetLinks, arguments_at_most};
use crate::position::{Position, next_target, start};
use crate::single::push_only;
use crate::task_at::TaskAt;
use plan_core::{Plan, Target};
use ptg_base::{Item, TaskId};
use range_space::Numbers;
use std::marker::Model;
use term_core::Direction;

/// An iterator over what a task sends, by flow and dependence in the text's order. Contracts see it as the list of the
/// items not yet yielded. Each guard is evaluated once. It takes no memory.
#[derive(Drop)]
pub struct TaskItems<'a> {
    plan: &'a Plan,
    task: &'a TaskId,
    locals: &'a [i64],
    position: Position<'a>,
    at_hand: TargetLinks,
}

impl<'a> Model for TaskItems<'a> {
    ghost use Rattle.std.specs.Prelude.{◌+◌, ◌≤◌, IsTrue, List, length};
    ghost use Rattle.ptg_base.specs.Limits.{most_flows};
    ghost use Rattle.ptg_base.specs.declared.edge.Item.{Item};
    ghost use Rattle.dep_iter.specs.Walking.{items_left, position_fits};

    ghost Value = { List Item };

    ghost view = { λ i. items_left i.task.now i.locals.now i.at_hand i.position };

    ghost invariant = { λ i.
        (i.position.next_flow + length i.position.flows.now ≤ most_flows)
        × IsTrue (position_fits i.plan.now i.position) };
}

// The next item of a walk over what a task sends, under its locals. It comes from what is left of the target at hand,
// or from the targets after it. A target whose arguments have one value each needs no progressions.
fn next_sent<'a>(
    plan: &Plan,
    task: &TaskId,
    env: &[i64],
    p: &mut Position<'a>,
    at_hand: &mut TargetLinks,
) -> Option<Item>
    requires room { p.old.next_flow + length p.old.flows.now ≤ most_flows }
    requires fit { IsTrue (position_fits plan.now p.old) }
    ensures found { YieldsFirst (λ (left : List ItemValue). left)
        (items_left task.now env.now at_hand.old p.old) result (items_left task.now env.now at_hand.new p.new) }
    ensures room { p.new.next_flow + length p.new.flows.now ≤ most_flows }
    ensures fit { IsTrue (position_fits plan.now p.new) }
{
    if at_hand.has_next() {
        return at_hand.next_item(task);
    }
    let target = next_target(Direction::Out, env, p)?;
    match target {
        Target::Task(class, flow, args) => {
            arguments_at_most(plan, *class, *flow, args.as_slice());
            let mut params = Numbers::new();
            if push_only(args.as_slice(), env, &mut params) {
                return link_item(task, p.flow, *class, *flow, params.as_slice());
            }
            at_hand.restart(plan, p.flow, target, env);
            next_sent(plan, task, env, p, at_hand)
        }
        Target::Element(coll, indices) => {
            write_item(task, p.flow, *coll, indices.as_slice(), env)
        }
        Target::New | Target::Null => next_sent(plan, task, env, p, at_hand),
    }
}

impl<'a> TaskAt<'a> {
    /// What the task sends, by flow and dependence in the text's order: its edges and its write-backs. They are
    /// evaluated lazily.
    pub fn items(&self) -> TaskItems<'a>
        ensures { result ≡ items.items self.now.plan.now self.now.task.now }
    {
        TaskItems {
            plan: self.plan,
            task: self.task,
            locals: self.locals,
            position: start(self.flows()),
            at_hand: TargetLinks::none(),
        }
    }
}

impl Iterator for TaskItems<'_> {
    type Item = Item;

    ghost next_gives = { YieldsFirst (λ left. left) };

    ghost remaining = { item_count (λ left. left) };

    fn next(&mut self) -> Option<Item> {
        next_sent(
            self.plan,
            self.task,
            self.locals,
            &mut self.position,
            &mut self.at_hand,
        )
    }
}
