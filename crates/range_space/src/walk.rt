//! Steps from one list of locals to the next in walk order.

ghost use Rattle.std.specs.Prelude.{◌≡◌, ◌+◌, ◌<◌, ◌≤◌, [], ◌∷◌, ◌++◌, length, take, drop, Ok, Err, IfOk, IfErr};
ghost use Rattle.std.specs.Bool.{OnTrue, OnFalse};
ghost use Rattle.ptg_base.specs.Limits.{most_locals};
ghost use Rattle.range_space.specs.Values.{values};
ghost use Rattle.range_space.specs.Tasks.{full_lists};
ghost use Rattle.range_space.specs.Fault.{bounds};
ghost use Rattle.range_space.specs.ListsAfter.{def_bounds, lists_over, lists_over_rest, lists_past, lists_after, IsFirstOf, IsFirstOver, IsFirstPast};

use crate::fault::SpanFault;
use crate::numbers::Numbers;
use crate::steps::{Steps, number, steps_of};
use ptg_base::MOST_LOCALS;
use term_core::{Def, Range};

// The progression of a definition under the values of those before it. An expression is a progression of one value.
pub(crate) fn def_steps(def: &Def, env: &[i64]) -> Result<Steps, SpanFault>
    ensures steps { IfOk result (λ s.
        def_bounds def.now env.now ≡ Ok (record { lo = s.lo; hi = s.hi; step = s.step })) }
    ensures fault { IfErr result (λ e. def_bounds def.now env.now ≡ Err e) }
{
    match def {
        Def::Span(range) => steps_of(range, env),
        Def::Value(e) => {
            let z = number(e, env)?;
            Ok(Steps {
                lo: z,
                hi: z,
                step: 1,
            })
        }
    }
}

// Extends these locals to the first full list; false if there is none.
#[cycle(nesting)]
pub(crate) fn first(defs: &[Def], locals: &mut Numbers<MOST_LOCALS>) -> bool
    requires { length locals.old + length defs.now ≤ most_locals }
    ensures found { OnTrue result (IsFirstOf defs.now locals.old locals.new (full_lists defs.now locals.old)) }
    ensures none { OnFalse result (full_lists defs.now locals.old ≡ []) }
    ensures same { OnFalse result (locals.new ≡ locals.old) }
{
    let Some((def, inner)) = defs.split_first() else {
        return true;
    };
    match def {
        Def::Span(range) => {
            let Ok(steps) = steps_of(range, locals.as_slice()) else {
                return false;
            };
            first_among(&steps, inner, locals)
        }
        Def::Value(e) => {
            let Ok(z) = number(e, locals.as_slice()) else {
                return false;
            };
            first_with(z, inner, locals)
        }
    }
}

// Extends these locals to the first full list whose next value is this one; false if there is none.
#[cycle(nesting)]
fn first_with(v: i64, inner: &[Def], locals: &mut Numbers<MOST_LOCALS>) -> bool
    requires { length locals.old + length inner.now < most_locals }
    ensures found { OnTrue result
        (IsFirstOf inner.now (locals.old ++ v ∷ []) locals.new (full_lists inner.now (locals.old ++ v ∷ []))) }
    ensures none { OnFalse result (full_lists inner.now (locals.old ++ v ∷ []) ≡ []) }
    ensures same { OnFalse result (locals.new ≡ locals.old) }
{
    locals.push(v);
    if first(inner, locals) {
        return true;
    }
    let _ = locals.pop();
    false
}

// Extends these locals to the first full list whose next value is one of these; false if there is none.
#[cycle(nesting)]
fn first_among(steps: &Steps, inner: &[Def], locals: &mut Numbers<MOST_LOCALS>) -> bool
    requires { length locals.old + length inner.now < most_locals }
    ensures found { OnTrue result
        (IsFirstOver (Ok (record { lo = steps.now.lo; hi = steps.now.hi; step = steps.now.step })) inner.now locals.old
        locals.new (lists_over inner.now locals.old (values steps.now.lo steps.now.hi steps.now.step))) }
    ensures none { OnFalse result
        (lists_over inner.now locals.old (values steps.now.lo steps.now.hi steps.now.step) ≡ []) }
    ensures same { OnFalse result (locals.new ≡ locals.old) }
{
    for v in steps.values() {
        if first_with(v, inner, locals) {
            return true;
        }
    }
    false
}

// Extends these locals to the first full list whose next value is one of this range after `v`; false if there is none.
fn first_in_range_past(
    range: &Range,
    v: i64,
    inner: &[Def],
    locals: &mut Numbers<MOST_LOCALS>,
) -> bool
    requires { length locals.old + length inner.now < most_locals }
    ensures found { OnTrue result
        (IsFirstOver (bounds range.now locals.old) inner.now locals.old locals.new
        (lists_over_rest inner.now locals.old (bounds range.now locals.old) v)) }
    ensures none { OnFalse result (lists_over_rest inner.now locals.old (bounds range.now locals.old) v ≡ []) }
    ensures same { OnFalse result (locals.new ≡ locals.old) }
{
    let Ok(steps) = steps_of(range, locals.as_slice()) else {
        return false;
    };
    match v.checked_add(steps.step) {
        Some(lo) => {
            let rest = Steps {
                lo,
                hi: steps.hi,
                step: steps.step,
            };
            first_among(&rest, inner, locals)
        }
        None => false,
    }
}

// Extends these locals to the first full list whose next value is one of this definition after `v`; false if there is
// none. An expression has one value alone, and is not evaluated again.
fn first_past(def: &Def, v: i64, inner: &[Def], locals: &mut Numbers<MOST_LOCALS>) -> bool
    requires { length locals.old + length inner.now < most_locals }
    ensures found { OnTrue result
        (IsFirstPast def.now inner.now locals.old locals.new (lists_past def.now inner.now locals.old v)) }
    ensures none { OnFalse result (lists_past def.now inner.now locals.old v ≡ []) }
    ensures same { OnFalse result (locals.new ≡ locals.old) }
{
    match def {
        Def::Span(range) => first_in_range_past(range, v, inner, locals),
        Def::Value(_) => false,
    }
}

// Changes a full list into the next one with the same first `depth` locals. If there is none, those locals alone stay
// and it returns false.
pub(crate) fn advance(defs: &[Def], depth: usize, locals: &mut Numbers<MOST_LOCALS>) -> bool
    requires full { length locals.old ≡ depth + length defs.now }
    requires locals_at_most { length locals.old ≤ most_locals }
    ensures found { OnTrue result
        (IsFirstOf defs.now (take depth locals.old) locals.new
        (lists_after defs.now (take depth locals.old) (drop depth locals.old))) }
    ensures none { OnFalse result (lists_after defs.now (take depth locals.old) (drop depth locals.old) ≡ []) }
    ensures truncated { OnFalse result (locals.new ≡ take depth locals.old) }
{
    let Some((def, inner)) = defs.split_first() else {
        return false;
    };
    if advance(inner, depth + 1, locals) {
        return true;
    }
    match locals.pop() {
        Some(v) => first_past(def, v, inner, locals),
        None => false,
    }
}
