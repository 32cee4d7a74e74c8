//! The combinations of values of arguments, one after another.

ghost use Rattle.std.specs.Prelude.{◌≡◌, ◌+◌, ◌≤◌, [], ◌++◌, drop, length, map, IfSome, slice_get};
ghost use Rattle.std.specs.Bool.{OnTrue, OnFalse};
ghost use Rattle.std.specs.Iterator.{YieldsFirst};
ghost use Rattle.std.specs.List.{AllByRecursion};
ghost use Rattle.std.specs.Option.{option_copied};
ghost use Rattle.std.specs.Result.{result_unwrap_or};
ghost use Rattle.ptg_base.specs.Limits.{most_params};
ghost use Rattle.dep_iter.specs.Arguments.{arg_values, combinations};
ghost use Rattle.dep_iter.specs.Combining.{combinations_left, first_values, product_after, HasFirst, HasOneEach, AddsSteps};

use crate::argument::nonempty;
use arrayvec::ArrayVec;
use plan_core::Arg;
use ptg_base::MOST_PARAMS;
use range_space::{Numbers, Steps};
use std::marker::Model;

/// The combinations of values of arguments that were not yet yielded, the first argument outermost. It takes no memory,
/// and advances in place.
#[derive(Drop)]
pub struct Combinations {
    spans: ArrayVec<Steps, MOST_PARAMS>,
    at: Numbers<MOST_PARAMS>,
    live: bool,
}

impl Model for Combinations {
    ghost use Rattle.std.specs.Prelude.{◌≡◌, ◌≤◌, true, List, ℤ, length};
    ghost use Rattle.std.specs.List.{AllByRecursion};
    ghost use Rattle.ptg_base.specs.Limits.{most_params};
    ghost use Rattle.dep_iter.specs.Combining.{combinations_left, HasFirst, HasOneEach};

    ghost Value = { List (List ℤ) };

    ghost view = { λ c. combinations_left c.live c.spans.items c.at };

    ghost invariant = { λ c.
        c.live ≡ true
        → (length c.at ≤ most_params) × HasOneEach c.spans.items c.at × AllByRecursion HasFirst c.spans.items };
}

// Adds the first value of each progression.
fn push_first(spans: &[Steps], values: &mut Numbers<MOST_PARAMS>)
    requires { length values.old + length spans.now ≤ most_params }
    ensures { values.new ≡ values.old ++ first_values spans.now }
{
    let Some((steps, inner)) = spans.split_first() else {
        return;
    };
    values.push(steps.lo);
    push_first(inner, values);
}

// Advances to the next combination: the last value that can advance does so, and those after it begin anew. Returns
// whether there is a next one.
fn advance(spans: &[Steps], at: &mut Numbers<MOST_PARAMS>) -> bool
    requires at_most { length at.old ≤ most_params }
    requires each { HasOneEach spans.now at.old }
    requires first { AllByRecursion HasFirst spans.now }
    ensures left { combinations_left result spans.now at.new ≡ product_after spans.now at.old }
    ensures each { HasOneEach spans.now at.new }
{
    let Some((steps, outer)) = spans.split_last() else {
        return false;
    };
    let Some(v) = at.pop() else {
        return false;
    };
    if let Some(w) = steps.next_value(v) {
        at.push(w);
        return true;
    }
    let more = advance(outer, at);
    at.push(steps.lo);
    more
}

// Adds the progression of each argument. Returns false as soon as one has no values.
fn push_spans(args: &[Arg], env: &[i64], spans: &mut ArrayVec<Steps, MOST_PARAMS>) -> bool
    requires { length spans.old.items + length args.now ≤ most_params }
    ensures found { OnTrue result
        (AddsSteps (map (λ a. result_unwrap_or (arg_values a env.now) []) args.now) spans.old.items spans.new.items) }
    ensures none { OnFalse result (combinations args.now env.now ≡ []) }
{
    let Some((arg, others)) = args.split_first() else {
        return true;
    };
    match nonempty(arg, env) {
        Some(steps) => {
            spans.push(steps);
            push_spans(others, env, spans)
        }
        None => false,
    }
}

impl Combinations {
    /// No combinations.
    pub fn none() -> Combinations
        ensures { result ≡ [] }
    {
        Combinations {
            spans: ArrayVec::new(),
            at: Numbers::new(),
            live: false,
        }
    }

    /// The combinations of the values of these arguments under these locals. There are none if an argument has a fault.
    pub fn new(args: &[Arg], env: &[i64]) -> Combinations
        requires { length args.now ≤ most_params }
        ensures { result ≡ combinations args.now env.now }
    {
        let mut all = Combinations::none();
        all.restart(args, env);
        all
    }

    /// Replaces the combinations by those of the values of these arguments under these locals.
    pub fn restart(&mut self, args: &[Arg], env: &[i64])
        requires { length args.now ≤ most_params }
        ensures { self.new ≡ combinations args.now env.now }
    {
        self.spans.clear();
        self.live = push_spans(args, env, &mut self.spans);
        self.at.clear();
        if self.live {
            push_first(self.spans.as_slice(), &mut self.at);
        }
    }

    /// Removes all combinations.
    pub fn stop(&mut self)
        ensures { self.new ≡ [] }
    {
        self.live = false;
    }

    /// The next combination, if there is one. It is not removed.
    pub fn first(&self) -> Option<&[i64]>
        ensures first { option_copied result ≡ slice_get self.now 0 }
        ensures at_most { IfSome result (λ values. length values.now ≤ most_params) }
    {
        if self.live {
            Some(self.at.as_slice())
        } else {
            None
        }
    }

    /// Skips the next combination. Takes no more steps than there are arguments.
    pub fn pass(&mut self)
        ensures { self.new ≡ drop 1 self.old }
    {
        if self.live {
            self.live = advance(self.spans.as_slice(), &mut self.at);
        }
    }

    /// Takes the next combination: a copy of it, or None if there is none.
    pub fn next(&mut self) -> Option<Numbers<MOST_PARAMS>>
        ensures { YieldsFirst (λ left. left) self.old result self.new }
    {
        if !self.live {
            return None;
        }
        let given = self.at.copy();
        self.pass();
        Some(given)
    }
}
