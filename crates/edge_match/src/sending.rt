//! What a flow sends: its edges are counted by arithmetic, and the places that it writes to are checked.

ghost use Rattle.std.specs.Prelude.{ℕ, IsTrue, false, flat_map};
ghost use Rattle.std.specs.Bool.{OnTrue};
ghost use Rattle.ptg_base.specs.Task.{Task};
ghost use Rattle.dep_iter.specs.Active.{held_targets};
ghost use Rattle.dep_iter.specs.Items.{items_to};
ghost use Rattle.dep_iter.specs.Well.{are_well, has_arguments};
ghost use Rattle.edge_match.specs.Tallies.{AreSent};

use crate::outs::Outs;
use dep_iter::{held_target, place_of};
use goal_count::combination_count;
use plan_core::{DepPlan, Plan, Target};

// Counts the items that a target stands for. Returns false if there are too many, or if a place does not exist or was
// written before.
fn send_target(plan: &Plan, target: &Target, env: &[i64], outs: &mut Outs) -> bool
    requires { IsTrue (has_arguments env.now target.now) }
    ensures { (t : Task) (n : ℕ)
        → OnTrue result (AreSent plan.now.colls outs.old outs.new (items_to t env.now n target.now)) }
{
    match target {
        Target::Task(_, _, args) => outs.add_edges(combination_count(args.as_slice(), env)),
        Target::Element(coll, indices) => {
            outs.add_write(plan, place_of(*coll, indices.as_slice(), env))
        }
        Target::New => true,
        Target::Null => true,
    }
}

// Counts the items that these out dependences send, or returns false as `send_target` does.
pub(crate) fn send_all(plan: &Plan, deps: &[DepPlan], env: &[i64], outs: &mut Outs) -> bool
    requires { IsTrue (are_well false env.now deps.now) }
    ensures { (t : Task) (n : ℕ) → OnTrue result (AreSent plan.now.colls outs.old outs.new
        (flat_map (items_to t env.now n) (held_targets false deps.now env.now))) }
{
    let Some((d, later)) = deps.split_first() else {
        return true;
    };
    let Some(target) = held_target(d, env) else {
        return send_all(plan, later, env, outs);
    };
    if !send_target(plan, target, env, outs) {
        return false;
    }
    send_all(plan, later, env, outs)
}
