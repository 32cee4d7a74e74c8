//! Resolves the names of a whole body.

ghost use Rattle.std.specs.Prelude.{IfOk, length};
ghost use Rattle.term_core.specs.WellBody.{IsWellBody};
ghost use Rattle.body_lang.specs.Environment.{environment_of};
ghost use Rattle.ptg_base.specs.Returns.{Returns};
ghost use Rattle.body_lang.specs.Statements.{body_of};

use crate::bindings::BindingTable;
use crate::scope::{Context, Scope};
use crate::statement::block;
use jdf_lex::JdfRefusal;
use jdf_tree::BlockTree;
use ptg_base::{Seq, Text};
use std::alloc::Global;
use term_core::Body;

/// Resolves the names of a body. Returns the body with its trap words in the order of their first use, or the first
/// fault of a name in the text's order.
///
/// The codes are NameTwice, UnknownName, WrongKind, CtlMixed, ReadAssigned, NotAssignable, and TooManyVars at the name
/// of the 257th variable. More trap words than a 32-bit number can count are OutOfMemory.
#[tactic(auto, using(ptg_base::proofs::Refusals::refuses_before))]
pub fn resolve(
    alloc: Global,
    scope: &Scope,
    tree: &BlockTree,
) -> Result<(Body, Seq<Text>), JdfRefusal>
    // The body, or the fault, is that of the definition, unless memory runs out.
    ensures answer { Returns (λ x. x) result (body_of (environment_of scope.now) tree.now) }
    // The body is well made for the locals and the flows of the scope.
    ensures well { IfOk result (λ (body, words). IsWellBody (length scope.now.locals) (length scope.now.flows) body) }
{
    let context = Context { alloc, scope };
    let mut bindings = BindingTable::new(alloc);
    let statements = block(&context, &mut bindings, tree)?;
    let slots = scope.locals.len() as u16 + bindings.declared;
    Ok((
        Body { statements, slots },
        bindings.into_words().into_seq(alloc)?,
    ))
}
