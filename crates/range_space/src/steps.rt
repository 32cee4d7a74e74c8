//! Ranges as progressions, whose members are found by arithmetic.

ghost use Rattle.std.specs.Prelude.{◌≡◌, ◌≢◌, ◌↔◌, ℤ, pos, ◌%◌, ◌+ℤ◌, length, not, true, false, IsTrue, IfOk, IfErr, MatchOption, Ok, Err, unsigned_abs};
ghost use Rattle.ptg_base.specs.Lists.{IsIn};
ghost use Rattle.range_space.specs.Values.{is_within, values};
ghost use Rattle.range_space.specs.Fault.{bounds, number, step_number};

use crate::fault::SpanFault;
use crate::values::Values;
use term_core::{Expr, Range, eval};

/// The numbers `lo`, `lo + step` and so on while they are within `hi`.
#[derive(Clone, Copy)]
pub struct Steps {
    pub lo: i64,
    pub hi: i64,
    pub step: i64,
    ghost step_nonzero: { step ≢ pos 0 },
}

impl Default for Steps {
    /// No numbers.
    fn default() -> Steps {
        Steps {
            lo: 0,
            hi: -1,
            step: 1,
        }
    }
}

// Whether a value is still within `hi` in the direction of the step.
pub(crate) fn is_within(hi: i64, step: i64, v: i64) -> bool
    ensures { result ≡ is_within hi step v }
{
    if step > 0 {
        v <= hi
    } else {
        step < 0 && hi <= v
    }
}

// The value of an expression, or its fault as a fault of a range.
#[inline(always)]
pub(crate) fn number(e: &Expr, env: &[i64]) -> Result<i64, SpanFault>
    ensures { result ≡ number e.now env.now }
{
    match eval(e, env) {
        Ok(z) => Ok(z),
        Err(fault) => Err(SpanFault::Expr(fault)),
    }
}

// The step of a range: 1 if none is written, and never 0.
#[inline(always)]
fn step_number(step: &Option<Expr>, env: &[i64]) -> Result<i64, SpanFault>
    ensures { result ≡ step_number step.now env.now }
{
    match step {
        None => Ok(1),
        Some(e) => {
            let z = number(e, env)?;
            if z == 0 {
                Err(SpanFault::ZeroStep)
            } else {
                Ok(z)
            }
        }
    }
}

/// The progression of a range under the values of the definitions before it, or the range's first fault.
#[inline(always)]
pub fn steps_of(range: &Range, env: &[i64]) -> Result<Steps, SpanFault>
    ensures steps { IfOk result (λ s. bounds range.now env.now ≡ Ok (record { lo = s.lo; hi = s.hi; step = s.step })) }
    ensures fault { IfErr result (λ e. bounds range.now env.now ≡ Err e) }
{
    let lo = number(&range.lo, env)?;
    let hi = number(&range.hi, env)?;
    let step = step_number(&range.step, env)?;
    Ok(Steps { lo, hi, step })
}

// Whether a gap is a whole number of steps. Most steps are 1, and a division takes longer than all else here.
fn is_whole(gap: u64, step: u64) -> bool
    requires { step ≢ 0 }
    ensures { IsTrue result ↔ gap % step ≡ 0 }
{
    step == 1 || gap % step == 0
}

impl Steps {
    /// The values, in order.
    pub fn values(&self) -> Values
        ensures { result ≡ values self.now.lo self.now.hi self.now.step }
    {
        Values::from(self.lo, self.hi, self.step)
    }

    /// Whether there is no value.
    pub fn is_empty(&self) -> bool
        ensures { result ≡ not (is_within self.now.hi self.now.step self.now.lo) }
    {
        !is_within(self.hi, self.step, self.lo)
    }

    /// The value one step after this one, if it is still within the end.
    pub fn next_value(&self, v: i64) -> Option<i64>
        ensures { MatchOption result (is_within self.now.hi self.now.step (v +ℤ self.now.step) ≡ false) (λ w.
            (w ≡ v +ℤ self.now.step) × (is_within self.now.hi self.now.step w ≡ true)) }
    {
        let hi = self.hi;
        match v.checked_add(self.step) {
            Some(w) => {
                if is_within(hi, self.step, w) {
                    Some(w)
                } else {
                    None
                }
            }
            None => None,
        }
    }

    /// How many values there are.
    pub fn count(&self) -> u128
        ensures { result ≡ length (values self.now.lo self.now.hi self.now.step) }
    {
        if self.is_empty() {
            return 0;
        }
        let gap = self.hi.abs_diff(self.lo);
        u128::from(gap / self.step.unsigned_abs()) + 1
    }

    /// Whether a number is one of the values.
    pub fn has(&self, v: i64) -> bool
        ensures { IsTrue result ↔ IsIn v (values self.now.lo self.now.hi self.now.step) }
    {
        if !is_within(self.hi, self.step, v) {
            return false;
        }
        if !is_within(v, self.step, self.lo) {
            return false;
        }
        is_whole(v.abs_diff(self.lo), self.step.unsigned_abs())
    }
}
