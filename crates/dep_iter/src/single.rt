//! Targets whose arguments have one value each.

ghost use Rattle.std.specs.Prelude.{◌≡◌, ◌+◌, ◌≤◌, ◌∷◌, [], length, map, IfSome, IsTrue};
ghost use Rattle.std.specs.Bool.{OnTrue};
ghost use Rattle.ptg_base.specs.Limits.{most_params};
ghost use Rattle.dep_iter.specs.Arguments.{combinations};
ghost use Rattle.dep_iter.specs.Combining.{AddsOnly};
ghost use Rattle.dep_iter.specs.Links.{edge_of_link, fits, links_to};

use crate::links::arguments_at_most;
use crate::near_end::NearEnd;
use plan_core::{Arg, Plan, Target};
use ptg_base::{Edge, MOST_PARAMS};
use range_space::Numbers;
use term_core::{Expr, eval};

/// Adds the value of each of these arguments, which is their only combination. Returns false if one of them is a range
/// or has a fault.
pub fn push_only(args: &[Arg], env: &[i64], values: &mut Numbers<MOST_PARAMS>) -> bool
    requires { length values.old + length args.now ≤ most_params }
    ensures { OnTrue result (AddsOnly (combinations args.now env.now) values.old values.new) }
{
    let Some((arg, others)) = args.split_first() else {
        return true;
    };
    let Arg::One(e) = arg else {
        return false;
    };
    let Ok(v) = eval(e, env) else {
        return false;
    };
    values.push(v);
    push_only(others, env, values)
}

// The only edge that a target stands for, if each of its arguments is a single expression with a value. It is built
// without progressions.
pub(crate) fn only_edge(
    plan: &Plan,
    end: NearEnd,
    near: u8,
    target: &Target,
    env: &[i64],
) -> Option<Edge>
    requires { IsTrue (fits plan.now target.now) }
    ensures { IfSome result (λ edge.
        map (edge_of_link end.entry.direction end.entry.task.now) (links_to env.now near target.now) ≡ edge ∷ []) }
{
    let Target::Task(class, far_flow, args) = target else {
        return None;
    };
    arguments_at_most(plan, *class, *far_flow, args.as_slice());
    let mut values = Numbers::new();
    if !push_only(args.as_slice(), env, &mut values) {
        return None;
    }
    end.edge(near, *class, *far_flow, values.as_slice())
}
