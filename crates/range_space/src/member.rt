//! Finds whether a class has a task, and the task's locals.

ghost use Rattle.std.specs.Prelude.{◌≡◌, ◌+◌, ◌≤◌, ◌↔◌, ℤ, List, [], ◌∷◌, Some, None, Ok, length, IsTrue, MatchOption};
ghost use Rattle.std.specs.Bool.{OnTrue, OnFalse};
ghost use Rattle.std.specs.Result.{result_unwrap_or};
ghost use Rattle.ptg_base.specs.Limits.{most_locals};
ghost use Rattle.ptg_base.specs.Lists.{IsIn};
ghost use Rattle.term_core.specs.WellSpace.{IsWellSpace, spans_are_params};
ghost use Rattle.range_space.specs.Tasks.{tasks, def_values};
ghost use Rattle.range_space.specs.Locals.{IsLocalsOf};
ghost use Rattle.range_space.specs.Completion.{param_value, AgreesWith, IsOnlyAgreeing, IsGivenIfRanged, IsCompletion, HasNoCompletion};
ghost use Rattle.range_space.specs.Fault.{number, range_values};
ghost use Rattle.ptg_base.specs.Returns.{and_then};

use crate::numbers::Numbers;
use crate::steps::{number, steps_of};
use ptg_base::MOST_LOCALS;
use term_core::{ClassSpace, Def, Expr, Range, eval};

/// The value that is given to the definition with this number, if it defines a parameter.
pub fn param_value(params: &[u8], values: &[i64], definition: usize) -> Option<i64>
    ensures { result ≡ param_value params.now values.now definition }
{
    let (first, others) = params.split_first()?;
    let (value, more) = values.split_first()?;
    if usize::from(*first) == definition {
        Some(*value)
    } else {
        param_value(others, more, definition)
    }
}

// The given value, if the range has it.
fn ranged(range: &Range, given: i64, env: &[i64]) -> Option<i64>
    ensures { IsOnlyAgreeing (result_unwrap_or (range_values range.now env.now) []) (Some given) result }
{
    let Ok(steps) = steps_of(range, env) else {
        return None;
    };
    if steps.has(given) { Some(given) } else { None }
}

// The value of the expression, if it is the given one or none is given.
fn derived(e: &Expr, given: Option<i64>, env: &[i64]) -> Option<i64>
    ensures { IsOnlyAgreeing (result_unwrap_or (and_then (number e.now env.now) (λ z. Ok (z ∷ []))) []) given result }
{
    let Ok(z) = number(e, env) else {
        return None;
    };
    match given {
        Some(w) => { if w == z { Some(z) } else { None } }
        None => Some(z),
    }
}

// The only value of a definition that agrees with what is given, if there is one.
fn local_of(def: &Def, given: Option<i64>, env: &[i64]) -> Option<i64>
    requires { IsGivenIfRanged def.now given }
    ensures { IsOnlyAgreeing (result_unwrap_or (def_values def.now env.now) []) given result }
{
    match def {
        Def::Span(range) => ranged(range, given?, env),
        Def::Value(e) => derived(e, given, env),
    }
}

// Extends these locals to a full list in which the parameters have these values; false if there is none.
fn complete(defs: &[Def], params: &[u8], values: &[i64], locals: &mut Numbers<MOST_LOCALS>) -> bool
    requires defs_at_most { length locals.old + length defs.now ≤ most_locals }
    requires arity { length params.now ≡ length values.now }
    requires spans { IsTrue (spans_are_params (length locals.old) defs.now params.now) }
    ensures found { OnTrue result
        (IsCompletion defs.now params.now values.now (length locals.old) locals.old locals.new) }
    ensures none { OnFalse result (HasNoCompletion defs.now params.now values.now (length locals.old) locals.old) }
{
    let Some((def, inner)) = defs.split_first() else {
        return true;
    };
    let env = locals.as_slice();
    let given = param_value(params, values, env.len());
    match local_of(def, given, env) {
        Some(v) => {
            locals.push(v);
            complete(inner, params, values, locals)
        }
        None => false,
    }
}

// The value of a definition that has no given value: that of its expression.
fn derived_value(def: &Def, env: &[i64]) -> i64
    requires { IsGivenIfRanged def.now None }
    ensures { (v : ℤ) → IsIn v (result_unwrap_or (def_values def.now env.now) []) → result ≡ v }
{
    match def {
        Def::Span(_) => 0,
        Def::Value(e) => eval(e, env).unwrap_or(0),
    }
}

// The local of a definition of a task: the given value, which is not tested again, or else the value of its expression.
fn known_local(def: &Def, given: Option<i64>, env: &[i64]) -> i64
    requires { IsGivenIfRanged def.now given }
    ensures { (v : ℤ) → IsIn v (result_unwrap_or (def_values def.now env.now) []) → AgreesWith given v → result ≡ v }
{
    match given {
        Some(v) => v,
        None => derived_value(def, env),
    }
}

// Extends these locals to the full list in which the parameters have these values, if there is one.
fn fill(defs: &[Def], params: &[u8], values: &[i64], locals: &mut Numbers<MOST_LOCALS>)
    requires defs_at_most { length locals.old + length defs.now ≤ most_locals }
    requires arity { length params.now ≡ length values.now }
    requires spans { IsTrue (spans_are_params (length locals.old) defs.now params.now) }
    ensures { (full : List ℤ) → IsCompletion defs.now params.now values.now (length locals.old) locals.old full
        → locals.new ≡ full }
{
    let Some((def, inner)) = defs.split_first() else {
        return;
    };
    let env = locals.as_slice();
    let given = param_value(params, values, env.len());
    let v = known_local(def, given, env);
    locals.push(v);
    fill(inner, params, values, locals)
}

/// Whether the class has a task with these parameters. Takes one pass over the definitions.
pub fn in_space(space: &ClassSpace, params: &[i64]) -> bool
    requires well { IsWellSpace space.now }
    requires arity { length params.now ≡ length space.now.params }
    ensures { IsTrue result ↔ IsIn params.now (tasks space.now) }
{
    let mut locals = Numbers::new();
    complete(
        space.defs.as_slice(),
        space.params.as_slice(),
        params,
        &mut locals,
    )
}

/// Replaces the locals by those of the task with these parameters, and returns whether the class has it. Takes one pass
/// over the definitions.
pub fn find_locals(space: &ClassSpace, params: &[i64], locals: &mut Numbers<MOST_LOCALS>) -> bool
    requires well { IsWellSpace space.now }
    requires arity { length params.now ≡ length space.now.params }
    ensures found { OnTrue result
        (IsIn params.now (tasks space.now) × IsLocalsOf space.now params.now locals.new) }
    ensures none { OnFalse result (IsIn params.now (tasks space.now) → ⊥) }
{
    locals.clear();
    complete(
        space.defs.as_slice(),
        space.params.as_slice(),
        params,
        locals,
    )
}

/// Replaces the locals by those of the task with these parameters, which must exist. So no range is evaluated.
pub fn fill_locals(space: &ClassSpace, params: &[i64], locals: &mut Numbers<MOST_LOCALS>)
    requires well { IsWellSpace space.now }
    requires task { IsIn params.now (tasks space.now) }
    ensures { IsLocalsOf space.now params.now locals.new }
{
    locals.clear();
    fill(
        space.defs.as_slice(),
        space.params.as_slice(),
        params,
        locals,
    );
}

/// The locals of the task with these parameters, which must exist.
pub fn locals_of(space: &ClassSpace, params: &[i64]) -> Numbers<MOST_LOCALS>
    requires well { IsWellSpace space.now }
    requires task { IsIn params.now (tasks space.now) }
    ensures { IsLocalsOf space.now params.now result }
{
    let mut locals = Numbers::new();
    fill_locals(space, params, &mut locals);
    locals
}
