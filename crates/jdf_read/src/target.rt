//! Reads the targets of dependences.

ghost use Rattle.jdf_tree.specs.ClassGrammar.{called, target};
ghost use Rattle.jdf_tree.specs.Reads.{Reads};

use crate::argument::call;
use expr_read::{is_name_next, name};
use grammar_core::ReadRefusal;
use jdf_lex::{Terminal, Token, expect, is_next};
use jdf_tree::{Part, TargetTree};
use std::alloc::Global;

// `name name? call`: one name is a collection's; of two names, the first is a flow's and the second a class's.
#[tactic(auto, unfolding(jdf_tree::specs::ClassGrammar::called))]
fn called(alloc: Global, tokens: &[Token]) -> Result<(TargetTree, &[Token]), ReadRefusal>
    ensures { Reads called tokens.now result }
{
    let (first, rest) = name(alloc, Part::Class, tokens)?;
    if !is_name_next(Part::Class, rest) {
        let (indices, rest) = call(alloc, rest)?;
        return Ok((TargetTree::Element(first, indices), rest));
    }
    let (class, rest) = name(alloc, Part::Class, rest)?;
    let (arguments, rest) = call(alloc, rest)?;
    Ok((TargetTree::Task(first, class, arguments), rest))
}

/// Reads `name name call | name call | NEW | NULL`.
#[tactic(auto, unfolding(jdf_tree::specs::ClassGrammar::target))]
pub(crate) fn target(alloc: Global, tokens: &[Token]) -> Result<(TargetTree, &[Token]), ReadRefusal>
    ensures { Reads target tokens.now result }
{
    if is_next(tokens, Terminal::New) {
        let (word, rest) = expect(tokens, Terminal::New)?;
        return Ok((TargetTree::New(word.spot), rest));
    }
    if is_next(tokens, Terminal::Null) {
        let (word, rest) = expect(tokens, Terminal::Null)?;
        return Ok((TargetTree::Null(word.spot), rest));
    }
    called(alloc, tokens)
}
