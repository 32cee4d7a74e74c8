//! The values of arguments.

ghost use Rattle.std.specs.Prelude.{◌≡◌, ◌↔◌, IsTrue, pos, [], Ok, IsErr, MatchOption, false, is_ok};
ghost use Rattle.std.specs.Result.{result_unwrap_or};
ghost use Rattle.ptg_base.specs.Lists.{IsIn};
ghost use Rattle.range_space.specs.Fault.{number};
ghost use Rattle.range_space.specs.Values.{values};
ghost use Rattle.plan_core.specs.declared.target.Arg.TheVariants.{One};
ghost use Rattle.dep_iter.specs.Arguments as arguments;
ghost use Rattle.dep_iter.specs.Combining.{steps_values, HasFirst};

use plan_core::Arg;
use range_space::{Steps, steps_of};
use term_core::{Expr, eval};

// The value of an expression as a progression of one value.
fn single_steps(e: &Expr, env: &[i64]) -> Option<Steps>
    ensures { MatchOption result (IsErr (number e.now env.now)) (λ s.
        (number e.now env.now ≡ Ok s.lo) × (s.hi ≡ s.lo) × (s.step ≡ pos 1)) }
{
    match eval(e, env) {
        Ok(z) => Some(Steps {
            lo: z,
            hi: z,
            step: 1,
        }),
        Err(_) => None,
    }
}

// The progression of the values of an argument under these locals, or None if it has a fault.
pub(crate) fn arg_steps(arg: &Arg, env: &[i64]) -> Option<Steps>
    ensures { MatchOption result (is_ok (arguments.arg_values arg.now env.now) ≡ false) (λ s.
        arguments.arg_values arg.now env.now ≡ Ok (values s.lo s.hi s.step)) }
{
    match arg {
        Arg::One(e) => single_steps(e, env),
        Arg::Span(range) => match steps_of(range, env) {
            Ok(steps) => Some(steps),
            Err(_) => None,
        },
    }
}

// The progression of an argument, or None if it has a fault or no value.
pub(crate) fn nonempty(arg: &Arg, env: &[i64]) -> Option<Steps>
    ensures { MatchOption result (result_unwrap_or (arguments.arg_values arg.now env.now) [] ≡ []) (λ s.
        (result_unwrap_or (arguments.arg_values arg.now env.now) [] ≡ steps_values s) × HasFirst s) }
{
    let steps = arg_steps(arg, env)?;
    if steps.is_empty() {
        return None;
    }
    Some(steps)
}

// Whether a number is the value of an expression.
fn is_value(e: &Expr, env: &[i64], v: i64) -> bool
    ensures { IsTrue result ↔ IsIn v (result_unwrap_or (arguments.arg_values (One e.now) env.now) []) }
{
    match eval(e, env) {
        Ok(z) => v == z,
        Err(_) => false,
    }
}

// Whether a number is one of the values of an argument. The value of an expression is compared as it is, without a
// progression.
pub(crate) fn takes_value(arg: &Arg, env: &[i64], v: i64) -> bool
    ensures { IsTrue result ↔ IsIn v (result_unwrap_or (arguments.arg_values arg.now env.now) []) }
{
    if let Arg::One(e) = arg {
        return is_value(e, env, v);
    }
    match arg_steps(arg, env) {
        Some(steps) => steps.has(v),
        None => false,
    }
}
