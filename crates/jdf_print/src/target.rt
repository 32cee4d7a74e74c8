//! Prints dependences and their targets.

ghost use Rattle.std.specs.Prelude.{◌≡◌, ◌++◌, OnOk};
ghost use Rattle.jdf_print.specs.Fragments.{text};
ghost use Rattle.jdf_print.specs.Spelling.{arrow, target, guard, other, datatype, dependence};

use crate::argument::put_arguments;
use crate::expression::put_expression;
use crate::writer::{put, put_word};
use jdf_tree::{DepTree, ExprTree, TargetTree, Word};
use ptg_base::{OutOfMemory, Seq};
use term_core::Direction;

// Appends a target of a dependence.
fn put_target(out: &mut Seq<u8>, to: &TargetTree) -> Result<(), OutOfMemory>
    ensures { OnOk result (out.new ≡ out.old ++ text (target to.now)) }
{
    match to {
        TargetTree::Task(flow, class, args) => {
            put_word(out, flow)?;
            put(out, b" ")?;
            put_word(out, class)?;
            put_arguments(out, args)
        }
        TargetTree::Element(collection, args) => {
            put_word(out, collection)?;
            put_arguments(out, args)
        }
        TargetTree::New(_) => put(out, b"NEW"),
        TargetTree::Null(_) => put(out, b"NULL"),
    }
}

// Appends a guard and its `?`, if there is one.
fn put_guard(out: &mut Seq<u8>, condition: &Option<ExprTree>) -> Result<(), OutOfMemory>
    ensures { OnOk result (out.new ≡ out.old ++ text (guard condition.now)) }
{
    match condition {
        Some(c) => {
            put_expression(out, c)?;
            put(out, b" ? ")
        }
        None => Ok(()),
    }
}

// Appends `:` and the target that is taken if the guard is false, if there is one.
fn put_other(out: &mut Seq<u8>, no: &Option<TargetTree>) -> Result<(), OutOfMemory>
    ensures { OnOk result (out.new ≡ out.old ++ text (other no.now)) }
{
    match no {
        Some(to) => {
            put(out, b" : ")?;
            put_target(out, to)
        }
        None => Ok(()),
    }
}

// Appends the name of a datatype as ` [type = NAME]`, if there is one.
fn put_datatype(out: &mut Seq<u8>, name: &Option<Word>) -> Result<(), OutOfMemory>
    ensures { OnOk result (out.new ≡ out.old ++ text (datatype name.now)) }
{
    match name {
        Some(word) => {
            put(out, b" [type = ")?;
            put_word(out, word)?;
            put(out, b"]")
        }
        None => Ok(()),
    }
}

// The arrow of a direction.
fn arrow_of(direction: Direction) -> &'static [u8]
    ensures { result.now ≡ arrow direction }
{
    match direction {
        Direction::In => b"<-",
        Direction::Out => b"->",
    }
}

/// Appends a dependence on a line, indented by two spaces.
pub(crate) fn put_dependence(out: &mut Seq<u8>, d: &DepTree) -> Result<(), OutOfMemory>
    ensures { OnOk result (out.new ≡ out.old ++ text (dependence d.now)) }
{
    put(out, b"  ")?;
    put(out, arrow_of(d.direction))?;
    put(out, b" ")?;
    put_guard(out, &d.guard)?;
    put_target(out, &d.yes)?;
    put_other(out, &d.no)?;
    put_datatype(out, &d.datatype)?;
    put(out, b"\n")
}
