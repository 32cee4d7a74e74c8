//! Resolves arguments: expressions and ranges.

ghost use Rattle.std.specs.Prelude.{◌++◌, Some};
ghost use Rattle.type_rules.specs.Contexts.{IsContext, job_of};
ghost use Rattle.type_rules.specs.Returns.{ReturnsChecked};
ghost use Rattle.type_rules.specs.Expressions.{expression_faults, option_faults};
ghost use Rattle.type_rules.specs.Arguments.{argument_faults, argument_of, range_of, range_faults, index_faults, index_of, arguments_faults, arguments_of, ranges_faults, indices_faults, indices_of};

use crate::context::Context;
use crate::expression::{option_term, term_of};
use crate::part::{and_rules, join, refused, with_part};
use jdf_lex::{JdfCode, JdfRefusal, fault_at};
use jdf_tree::{ArgTree, ExprTree};
use plan_core::Arg;
use ptg_base::Seq;
use std::alloc::Global;
use term_core::{Expr, Range};

/// Resolves the names of a range with these bounds and this step.
pub fn range(
    context: &Context,
    lo: &ExprTree,
    hi: &ExprTree,
    step: &Option<ExprTree>,
) -> Result<Range, JdfRefusal>
    requires { IsContext context.now }
    ensures { ReturnsChecked result (range_of (job_of context.now) context.now.seen.now lo.now hi.now step.now)
        (expression_faults (job_of context.now) context.now.seen.now lo.now
        ++ (expression_faults (job_of context.now) context.now.seen.now hi.now
        ++ option_faults (job_of context.now) context.now.seen.now step.now)) }
{
    let rest = join(term_of(context, hi), option_term(context, step));
    match join(term_of(context, lo), rest) {
        Err(refusal) => Err(refusal),
        Ok((lo, rest)) => Ok(Range {
            lo,
            hi: rest.0,
            step: rest.1,
        }),
    }
}

// Resolves the names of an argument of a task.
fn argument(context: &Context, arg: &ArgTree) -> Result<Arg, JdfRefusal>
    requires { IsContext context.now }
    ensures { ReturnsChecked result (argument_of (job_of context.now) context.now.seen.now arg.now)
        (argument_faults (job_of context.now) context.now.seen.now arg.now) }
{
    match arg {
        ArgTree::One(e) => Ok(Arg::One(term_of(context, e)?)),
        ArgTree::Span(_, lo, hi, step) => Ok(Arg::Span(range(context, lo, hi, step)?)),
    }
}

// Resolves the names of an index of an element. An index cannot be a range.
fn index(context: &Context, arg: &ArgTree) -> Result<Expr, JdfRefusal>
    requires { IsContext context.now }
    ensures { ReturnsChecked result (index_of (job_of context.now) context.now.seen.now arg.now)
        (index_faults (job_of context.now) context.now.seen.now arg.now) }
{
    match arg {
        ArgTree::One(e) => term_of(context, e),
        ArgTree::Span(spot, lo, hi, step) => refused(
            range(context, lo, hi, step),
            *spot,
            JdfCode::RangeInPlace,
        ),
    }
}

/// Resolves the names of the arguments of a task.
pub fn arguments(context: &Context, args: &[ArgTree]) -> Result<Seq<Arg>, JdfRefusal>
    requires { IsContext context.now }
    ensures { ReturnsChecked result (arguments_of (job_of context.now) context.now.seen.now args.now)
        (arguments_faults (job_of context.now) context.now.seen.now args.now) }
{
    let mut parts = Ok(Seq::new(context.alloc));
    for arg in args {
        parts = with_part(parts, argument(context, arg));
    }
    parts
}

/// Resolves the names of the indices of an element. No index can be a range.
pub fn indices(context: &Context, args: &[ArgTree]) -> Result<Seq<Expr>, JdfRefusal>
    requires { IsContext context.now }
    ensures { ReturnsChecked result (indices_of (job_of context.now) context.now.seen.now args.now)
        (indices_faults (job_of context.now) context.now.seen.now args.now) }
{
    let mut parts = Ok(Seq::new(context.alloc));
    for arg in args {
        parts = with_part(parts, index(context, arg));
    }
    parts
}

// Refuses a range, at its first token, with this code.
fn no_range(code: JdfCode, arg: &ArgTree) -> Result<(), JdfRefusal>
    ensures { ReturnsChecked result (Some tt) (range_faults code arg.now) }
{
    match arg {
        ArgTree::One(_) => Ok(()),
        ArgTree::Span(spot, _, _, _) => Err(fault_at(*spot, code)),
    }
}

/// Refuses a range among the arguments, at its first token, with this code.
pub fn no_ranges(code: JdfCode, args: &[ArgTree]) -> Result<(), JdfRefusal>
    ensures { ReturnsChecked result (Some tt) (ranges_faults code args.now) }
{
    let mut rules = Ok(());
    for arg in args {
        rules = and_rules(rules, no_range(code, arg));
    }
    rules
}
