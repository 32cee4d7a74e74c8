//! Prints arguments and ranges.

ghost use Rattle.std.specs.Prelude.{◌≡◌, ◌++◌, OnOk, map};
ghost use Rattle.std.specs.List.{flat_map};
ghost use Rattle.jdf_print.specs.Fragments.{text, with_commas, comma};
ghost use Rattle.jdf_print.specs.Spelling.{argument, arguments, step};

use crate::expression::put_expression;
use crate::writer::put;
use jdf_tree::{ArgTree, ExprTree};
use ptg_base::{OutOfMemory, Seq};

// Appends the step of a range, if there is one.
fn put_step(out: &mut Seq<u8>, by: &Option<ExprTree>) -> Result<(), OutOfMemory>
    ensures { OnOk result (out.new ≡ out.old ++ text (step by.now)) }
{
    match by {
        Some(e) => {
            put(out, b" .. ")?;
            put_expression(out, e)
        }
        None => Ok(()),
    }
}

/// Appends an argument, or the value of a definition.
pub(crate) fn put_argument(out: &mut Seq<u8>, arg: &ArgTree) -> Result<(), OutOfMemory>
    ensures { OnOk result (out.new ≡ out.old ++ text (argument arg.now)) }
{
    match arg {
        ArgTree::One(e) => put_expression(out, e),
        ArgTree::Span(_, lo, hi, by) => {
            put_expression(out, lo)?;
            put(out, b" .. ")?;
            put_expression(out, hi)?;
            put_step(out, by)
        }
    }
}

// Appends the arguments after the first, a comma before each.
fn put_later(out: &mut Seq<u8>, args: &[ArgTree]) -> Result<(), OutOfMemory>
    ensures { OnOk result (out.new ≡ out.old ++ text (flat_map (λ a. comma ++ argument a) args.now)) }
{
    for arg in args {
        put(out, b", ")?;
        put_argument(out, arg)?;
    }
    Ok(())
}

// Appends arguments with commas between them.
fn put_listed(out: &mut Seq<u8>, args: &[ArgTree]) -> Result<(), OutOfMemory>
    ensures { OnOk result (out.new ≡ out.old ++ text (with_commas (map argument args.now))) }
{
    let Some((first, later)) = args.split_first() else {
        return Ok(());
    };
    put_argument(out, first)?;
    put_later(out, later)
}

/// Appends a list of arguments in its parentheses.
pub(crate) fn put_arguments(out: &mut Seq<u8>, args: &Seq<ArgTree>) -> Result<(), OutOfMemory>
    ensures { OnOk result (out.new ≡ out.old ++ text (arguments args.now)) }
{
    put(out, b"(")?;
    put_listed(out, args.as_slice())?;
    put(out, b")")
}
