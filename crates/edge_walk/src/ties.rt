//! The ties of a task, one after another.

ghost use Rattle.std.specs.Prelude.{◌≡◌, ◌+◌, ◌<◌, ◌≤◌, ◌^◌, ◌++◌, length, IsTrue, List};
ghost use Rattle.std.specs.Iterator.{YieldsFirst, item_count};
ghost use Rattle.ptg_base.specs.Limits.{most_flows};
ghost use Rattle.dep_iter.specs.Tasks.{IsTask};
ghost use Rattle.edge_walk.specs.declared.tie.Tie.{Tie as TieValue};
ghost use Rattle.edge_walk.specs.Ties as specs;
ghost use Rattle.edge_walk.specs.Ties.{all_ties};
ghost use Rattle.edge_walk.specs.Walking.{left, position_fits};

use crate::position::{Position, next_active, start};
use crate::target_ties::TargetTies;
use crate::tie::Tie;
use dep_iter::{flows_of, locals_of};
use plan_core::Plan;
use ptg_base::{MOST_LOCALS, TaskId};
use range_space::Numbers;
use std::marker::Model;
use term_core::Direction;

/// An iterator over the ties of a task. Contracts see it as the list of those not yet yielded. It takes no memory.
#[derive(Drop)]
pub struct Ties<'a> {
    plan: &'a Plan,
    direction: Direction,
    env: Numbers<MOST_LOCALS>,
    position: Position<'a>,
    at_hand: TargetTies,
}

impl<'a> Model for Ties<'a> {
    ghost use Rattle.std.specs.Prelude.{◌+◌, ◌<◌, ◌≤◌, ◌^◌, ◌++◌, IsTrue, List, length};
    ghost use Rattle.ptg_base.specs.Limits.{most_flows};
    ghost use Rattle.edge_walk.specs.declared.tie.Tie.{Tie};
    ghost use Rattle.edge_walk.specs.Ties.{all_ties};
    ghost use Rattle.edge_walk.specs.Walking.{left, position_fits};

    ghost Value = { List Tie };

    ghost view = { λ t. t.at_hand ++ all_ties t.env (left t.direction t.env t.position) };

    ghost invariant = { λ t. (t.position.next_flow + length t.position.flows.now ≤ most_flows)
        × (t.position.dependence + length t.position.deps.now < 2 ^ 64)
        × IsTrue (position_fits t.plan.now t.position) };
}

// The next tie of a walk under these locals: from those left of the dependence at hand, or from the dependences after
// it.
fn next_tie<'a>(
    plan: &Plan,
    direction: Direction,
    env: &[i64],
    p: &mut Position<'a>,
    at_hand: &mut TargetTies,
) -> Option<Tie>
    requires room { p.old.next_flow + length p.old.flows.now ≤ most_flows }
    requires count { p.old.dependence + length p.old.deps.now < 2 ^ 64 }
    requires fit { IsTrue (position_fits plan.now p.old) }
    ensures found { YieldsFirst (λ (ts : List TieValue). ts)
        (at_hand.old ++ all_ties env.now (left direction env.now p.old)) result
        (at_hand.new ++ all_ties env.now (left direction env.now p.new)) }
    ensures room { p.new.next_flow + length p.new.flows.now ≤ most_flows }
    ensures count { p.new.dependence + length p.new.deps.now < 2 ^ 64 }
    ensures fit { IsTrue (position_fits plan.now p.new) }
{
    if let Some(tie) = at_hand.next() {
        return Some(tie);
    }
    let active = next_active(direction, env, *p)?;
    at_hand.restart(plan, active, env);
    *p = active.after;
    next_tie(plan, direction, env, p, at_hand)
}

/// The ties of a task in one direction, by flow and dependence in the text's order; for a dependence that names many
/// tasks, the first argument is outermost. They are evaluated lazily.
pub fn ties_of<'a>(plan: &'a Plan, t: &TaskId, direction: Direction) -> Ties<'a>
    requires { IsTask plan.now t.now }
    ensures { result ≡ specs.ties plan.now t.now direction }
{
    Ties {
        plan,
        direction,
        env: locals_of(plan, t),
        position: start(flows_of(plan, t)),
        at_hand: TargetTies::none(),
    }
}

impl Iterator for Ties<'_> {
    type Item = Tie;

    ghost next_gives = { YieldsFirst (λ left. left) };

    ghost remaining = { item_count (λ left. left) };

    fn next(&mut self) -> Option<Tie> {
        let env = self.env.as_slice();
        next_tie(
            self.plan,
            self.direction,
            env,
            &mut self.position,
            &mut self.at_hand,
        )
    }
}
