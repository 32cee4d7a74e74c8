//! Guards, and the targets of dependences.

ghost use Rattle.std.specs.Prelude.{◌≡◌};
ghost use Rattle.std.specs.Option.{option_copied};
ghost use Rattle.dep_iter.specs.Active as active;

use plan_core::{DepPlan, Target};
use term_core::{Expr, ExprFault, eval};

/// Whether a guard holds under these locals, or its fault.
pub fn guard_value(guard: &Option<Expr>, env: &[i64]) -> Result<bool, ExprFault>
    ensures { result ≡ active.guard_value guard.now env.now }
{
    match guard {
        None => Ok(true),
        Some(c) => {
            let v = eval(c, env)?;
            Ok(v != 0)
        }
    }
}

/// The target of a dependence, by whether its guard holds.
pub fn target_by<'a>(d: &'a DepPlan, holds: bool) -> Option<&'a Target>
    ensures { option_copied result ≡ active.target_by d.now holds }
{
    if holds { Some(&d.yes) } else { d.no.as_ref() }
}

/// The target of a dependence under these locals, if it holds. A dependence whose guard has a fault does not hold.
pub fn held_target<'a>(d: &'a DepPlan, env: &[i64]) -> Option<&'a Target>
    ensures { option_copied result ≡ active.held_target d.now env.now }
{
    match guard_value(&d.guard, env) {
        Ok(holds) => target_by(d, holds),
        Err(_) => None,
    }
}
