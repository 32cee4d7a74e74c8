//! Reads arguments.

ghost use Rattle.std.specs.Prelude.{◌≡◌};
ghost use Rattle.jdf_lex.specs.Sets.{starts};
ghost use Rattle.jdf_tree.specs.ClassGrammar.{argument, arguments, call};
ghost use Rattle.jdf_tree.specs.Grammar.{begins_operand};
ghost use Rattle.jdf_tree.specs.Reads.{Reads};
ghost use Rattle.jdf_tree.specs.declared.part.Part.TheVariants.{Class};
ghost use Rattle.jdf_tree.specs.GrammarParts.{maybe};
ghost use Rattle.jdf_read.specs.Next.{next_argument};

use expr_read::{is_name_next, outer};
use grammar_core::ReadRefusal;
use jdf_lex::{Terminal, Token, expect, is_next};
use jdf_tree::{ArgTree, Part};
use ptg_base::Seq;
use std::alloc::Global;

/// Reads `expr (".." expr (".." expr)?)?`.
#[tactic(auto, unfolding(jdf_tree::specs::ClassGrammar::argument))]
pub(crate) fn argument(alloc: Global, tokens: &[Token]) -> Result<(ArgTree, &[Token]), ReadRefusal>
    ensures { Reads argument tokens.now result }
{
    let (low, rest) = outer(alloc, Part::Class, tokens)?;
    if !is_next(rest, Terminal::Dots) {
        return Ok((ArgTree::One(low.tree), rest));
    }
    let (_, rest) = expect(rest, Terminal::Dots)?;
    let (high, rest) = outer(alloc, Part::Class, rest)?;
    if !is_next(rest, Terminal::Dots) {
        return Ok((ArgTree::Span(low.spot, low.tree, high.tree, None), rest));
    }
    let (_, rest) = expect(rest, Terminal::Dots)?;
    let (step, rest) = outer(alloc, Part::Class, rest)?;
    Ok((
        ArgTree::Span(low.spot, low.tree, high.tree, Some(step.tree)),
        rest,
    ))
}

// `"," argument`
#[tactic(auto, unfolding(crate::specs::Next::next_argument))]
fn next_argument(alloc: Global, tokens: &[Token]) -> Result<(ArgTree, &[Token]), ReadRefusal>
    ensures { Reads next_argument tokens.now result }
{
    let (_, rest) = expect(tokens, Terminal::Comma)?;
    argument(alloc, rest)
}

// `argument ("," argument)*`
fn arguments(alloc: Global, tokens: &[Token]) -> Result<(Seq<ArgTree>, &[Token]), ReadRefusal>
    ensures { Reads arguments tokens.now result }
{
    let (first, mut rest) = argument(alloc, tokens)?;
    let mut list = Seq::new(alloc);
    list.push(first)?;
    'more: while is_next(rest, Terminal::Comma) {
        let (next, after) = next_argument(alloc, rest)?;
        list.push(next)?;
        rest = after;
    }
    Ok((list, rest))
}

// Whether an argument is next.
fn is_argument_next(tokens: &[Token]) -> bool
    ensures { result ≡ starts (begins_operand Class) tokens.now }
{
    match tokens.split_first() {
        None => false,
        Some((first, _)) => match Terminal::of(first) {
            Terminal::Minus | Terminal::Not | Terminal::Number | Terminal::LeftParen => true,
            _ => is_name_next(Part::Class, tokens),
        },
    }
}

// `arguments?`
#[tactic(auto, using(crate::proofs::Begins::arguments_begin))]
fn maybe_arguments(alloc: Global, tokens: &[Token]) -> Result<(Seq<ArgTree>, &[Token]), ReadRefusal>
    ensures { Reads (maybe arguments) tokens.now result }
{
    if !is_argument_next(tokens) {
        return Ok((Seq::new(alloc), tokens));
    }
    arguments(alloc, tokens)
}

/// Reads `"(" arguments? ")"`.
#[tactic(auto, unfolding(jdf_tree::specs::ClassGrammar::call))]
pub(crate) fn call(alloc: Global, tokens: &[Token]) -> Result<(Seq<ArgTree>, &[Token]), ReadRefusal>
    ensures { Reads call tokens.now result }
{
    let (_, rest) = expect(tokens, Terminal::LeftParen)?;
    let (list, rest) = maybe_arguments(alloc, rest)?;
    let (_, rest) = expect(rest, Terminal::RightParen)?;
    Ok((list, rest))
}
