//! Resolves elements of collections.

ghost use Rattle.std.specs.Prelude.{◌≡◌, Some, is_some, if◌then◌else◌};
ghost use Rattle.type_rules.specs.Contexts.{IsContext, job_of};
ghost use Rattle.jdf_lex.specs.declared.fault.JdfCode.TheVariants.{UnknownName, WrongKind};
ghost use Rattle.type_rules.specs.Names.{coll_named, int_named};
ghost use Rattle.type_rules.specs.Returns.{ReturnsChecked};
ghost use Rattle.type_rules.specs.Elements.{dimensions_of, collection_faults, element_faults, element_of};

use crate::argument::indices;
use crate::context::{Context, coll_named, int_named};
use crate::fault::fault_if;
use crate::part::{and_rules, join};
use coll_data::Given;
use jdf_lex::{JdfCode, JdfRefusal, fault_at};
use jdf_tree::{ArgTree, Word};
use ptg_base::{Seq, Text};
use term_core::Expr;

// How many dimensions the collection with this number has; 0 if there is none.
fn dimensions_of(context: &Context, number: u32) -> usize
    ensures { result ≡ dimensions_of (job_of context.now) number }
{
    match context.given.colls().get(number as usize) {
        None => 0,
        Some(coll) => match coll.shape.1 {
            None => 1,
            Some(_) => 2,
        },
    }
}

// The code for a name that no collection has.
fn no_collection(context: &Context, name: &Text) -> JdfCode
    requires { IsContext context.now }
    ensures { result ≡ (if is_some (int_named (job_of context.now) name.now) then WrongKind else UnknownName) }
{
    if int_named(context, name).is_some() {
        JdfCode::WrongKind
    } else {
        JdfCode::UnknownName
    }
}

// Returns the number of a collection; refuses it unless it has this many dimensions.
fn dimensioned(context: &Context, word: &Word, count: usize, number: u32) -> Result<u32, JdfRefusal>
    ensures { ReturnsChecked result (Some number)
        (collection_faults (job_of context.now) word.now count (Some number)) }
{
    let differs = dimensions_of(context, number) != count;
    and_rules(Ok(number), fault_if(differs, word.spot, JdfCode::Arity))
}

// The number of the collection of a name that is followed by this many indices.
fn collection(context: &Context, word: &Word, count: usize) -> Result<u32, JdfRefusal>
    requires { IsContext context.now }
    ensures { ReturnsChecked result (coll_named (job_of context.now) word.now.text)
        (collection_faults (job_of context.now) word.now count (coll_named (job_of context.now) word.now.text)) }
{
    match coll_named(context, &word.text) {
        None => Err(fault_at(word.spot, no_collection(context, &word.text))),
        Some(number) => dimensioned(context, word, count, number),
    }
}

/// Resolves an element of a collection: returns the number of the collection and the indices.
pub fn element(
    context: &Context,
    word: &Word,
    args: &[ArgTree],
) -> Result<(u32, Seq<Expr>), JdfRefusal>
    requires { IsContext context.now }
    ensures { ReturnsChecked result (element_of (job_of context.now) context.now.seen.now word.now args.now)
        (element_faults (job_of context.now) context.now.seen.now word.now args.now) }
{
    join(
        collection(context, word, args.len()),
        indices(context, args),
    )
}
