//! Which dependence of a task needs an expression that has no value.

use dep_iter::{guard_value, has_arguments, target_by};
use plan_core::{DepPlan, FlowPlan};
use term_core::Direction;

/// The direction of the first dependence of a flow that needs such an expression, and its number among those of that
/// direction.
pub fn ill_dependence(flow: &FlowPlan, env: &[i64]) -> Option<(Direction, usize)> {
    match first_ill(flow.kind.is_data(), flow.ins.as_slice(), env) {
        Some(number) => Some((Direction::In, number)),
        None => Some((Direction::Out, first_ill(false, flow.outs.as_slice(), env)?)),
    }
}

// The number of the first of these dependences that needs such an expression. If `first_only`, none after the first
// active one is looked at.
fn first_ill(first_only: bool, deps: &[DepPlan], env: &[i64]) -> Option<usize> {
    for (number, dependence) in deps.iter().enumerate() {
        let Ok(holds) = guard_value(&dependence.guard, env) else {
            return Some(number);
        };
        match target_by(dependence, holds) {
            Some(target) if !has_arguments(env, target) => return Some(number),
            Some(_) if first_only => return None,
            _ => {}
        }
    }
    None
}
