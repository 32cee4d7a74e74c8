//! Reads the parts of a class before its flows.

ghost use Rattle.std.specs.Prelude.{◌≡◌, ◌-◌, ◌≤◌, nat_lt, length};
ghost use Rattle.std.specs.List.{prefix_len};
ghost use Rattle.ptg_base.specs.Returns.{Returns};
ghost use Rattle.grammar_core.specs.Production.{opt};
ghost use Rattle.grammar_core.specs.Reading.{reading};
ghost use Rattle.jdf_lex.specs.Terminals.{terminal_of};
ghost use Rattle.jdf_tree.specs.declared.part.Part.TheVariants.{Class};
ghost use Rattle.jdf_tree.specs.ClassGrammar.{most_parameter_tokens, parameters, parameter_list, definition, definitions, affinity, is_no_right_bracket, properties};
ghost use Rattle.jdf_tree.specs.Grammar.{productions};
ghost use Rattle.jdf_tree.specs.Reads.{Reads};
ghost use Rattle.jdf_tree.specs.GrammarParts.{name, listed, maybe};
ghost use Rattle.jdf_read.specs.Next.{next_parameter, past, signature};

use crate::argument::{argument, call};
use expr_read::{is_name_next, name};
use grammar_core::{ReadFault, ReadRefusal, refusal_at};
use jdf_lex::{GrammarCode, Terminal, Token, expect, is_next};
use jdf_tree::{ArgTree, DefTree, Part, Word};
use ptg_base::{MOST_LOCALS, MOST_PARAMS, Seq};
use std::alloc::Global;

// How many tokens the greatest number of parameters has, with a comma after each.
const MOST_PARAMETER_TOKENS: usize = 2 * MOST_PARAMS;

// `"," name`
#[tactic(auto, unfolding(crate::specs::Next::next_parameter))]
fn next_parameter(alloc: Global, tokens: &[Token]) -> Result<(Word, &[Token]), ReadRefusal>
    ensures { Reads next_parameter tokens.now result }
{
    let (_, rest) = expect(tokens, Terminal::Comma)?;
    name(alloc, Part::Class, rest)
}

// `name ("," name)*`
fn names(alloc: Global, tokens: &[Token]) -> Result<(Seq<Word>, &[Token]), ReadRefusal>
    ensures { Reads (listed (name Class)) tokens.now result }
{
    let (first, mut rest) = name(alloc, Part::Class, tokens)?;
    let mut list = Seq::new(alloc);
    list.push(first)?;
    'more: while is_next(rest, Terminal::Comma) {
        let (next, after) = next_parameter(alloc, rest)?;
        list.push(next)?;
        rest = after;
    }
    Ok((list, rest))
}

// Whether more tokens were taken than eight parameters with their commas have, if this many are left.
fn is_over(tokens: &[Token], left: usize) -> bool
    ensures { result ≡ nat_lt most_parameter_tokens (length tokens.now - left) }
{
    MOST_PARAMETER_TOKENS < tokens.len().saturating_sub(left)
}

// The names of the parameters, at most 8.
#[tactic(auto, unfolding(jdf_tree::specs::ClassGrammar::parameters))]
fn parameters(alloc: Global, tokens: &[Token]) -> Result<(Seq<Word>, &[Token]), ReadRefusal>
    ensures { Reads parameters tokens.now result }
{
    let over = ReadRefusal::Fault(ReadFault {
        left: tokens.len().saturating_sub(MOST_PARAMETER_TOKENS),
        code: GrammarCode::TooManyParams.code(),
    });
    match names(alloc, tokens) {
        Ok((_, rest)) if is_over(tokens, rest.len()) => Err(over),
        Err(ReadRefusal::Fault(ReadFault { left, .. })) if is_over(tokens, left) => Err(over),
        read => read,
    }
}

// `parameters?`
#[tactic(auto, using(crate::proofs::Begins::parameters_begin))]
fn maybe_parameters(alloc: Global, tokens: &[Token]) -> Result<(Seq<Word>, &[Token]), ReadRefusal>
    ensures { Reads (maybe parameters) tokens.now result }
{
    if !is_name_next(Part::Class, tokens) {
        return Ok((Seq::new(alloc), tokens));
    }
    parameters(alloc, tokens)
}

// `"(" parameters? ")"`
#[tactic(auto, unfolding(jdf_tree::specs::ClassGrammar::parameter_list))]
fn parameter_list(alloc: Global, tokens: &[Token]) -> Result<(Seq<Word>, &[Token]), ReadRefusal>
    ensures { Reads parameter_list tokens.now result }
{
    let (_, rest) = expect(tokens, Terminal::LeftParen)?;
    let (list, rest) = maybe_parameters(alloc, rest)?;
    let (_, rest) = expect(rest, Terminal::RightParen)?;
    Ok((list, rest))
}

// The index of the first `]`, or the number of tokens.
fn bracket_index(tokens: &[Token]) -> usize
    ensures value { result ≡ prefix_len (λ x. is_no_right_bracket (terminal_of x)) tokens.now }
    ensures within { result ≤ length tokens.now }
{
    tokens
        .iter()
        .take_while(|token| Terminal::of(token) != Terminal::RightBracket)
        .count()
}

// `"[", tokens other than "]", "]"`: the tokens between the brackets.
#[tactic(auto, using(crate::proofs::Runs::split_is), unfolding(jdf_tree::specs::ClassGrammar::properties))]
fn properties(tokens: &[Token]) -> Result<(&[Token], &[Token]), ReadRefusal>
    ensures { Returns (λ (skipped, rest). (skipped.now, rest.now)) result (reading productions properties tokens.now) }
{
    let (_, inside) = expect(tokens, Terminal::LeftBracket)?;
    let (skipped, rest) = inside.split_at(bracket_index(inside));
    let (_, rest) = expect(rest, Terminal::RightBracket)?;
    Ok((skipped, rest))
}

/// Skips `properties?`, and returns the tokens after them.
#[tactic(auto, using(crate::proofs::Begins::properties_begin))]
pub(crate) fn past_properties(tokens: &[Token]) -> Result<&[Token], ReadRefusal>
    ensures { Returns (λ rest. rest.now) result (past (opt properties) tokens.now) }
{
    if !is_next(tokens, Terminal::LeftBracket) {
        return Ok(tokens);
    }
    let (_, rest) = properties(tokens)?;
    Ok(rest)
}

/// Reads `name "(" parameters? ")" properties?`: the name and the parameters.
pub(crate) fn signature(
    alloc: Global,
    tokens: &[Token],
) -> Result<((Word, Seq<Word>), &[Token]), ReadRefusal>
    ensures { Reads signature tokens.now result }
{
    let (class, rest) = name(alloc, Part::Class, tokens)?;
    let (params, rest) = parameter_list(alloc, rest)?;
    let rest = past_properties(rest)?;
    Ok(((class, params), rest))
}

// `name "=" argument`
#[tactic(auto, unfolding(jdf_tree::specs::ClassGrammar::definition))]
fn definition(alloc: Global, tokens: &[Token]) -> Result<(DefTree, &[Token]), ReadRefusal>
    ensures { Reads definition tokens.now result }
{
    let (name, rest) = name(alloc, Part::Class, tokens)?;
    let (_, rest) = expect(rest, Terminal::Assign)?;
    let (value, rest) = argument(alloc, rest)?;
    Ok((DefTree { name, value }, rest))
}

/// Reads the definitions of a class.
pub(crate) fn definitions(
    alloc: Global,
    tokens: &[Token],
) -> Result<(Seq<DefTree>, &[Token]), ReadRefusal>
    ensures { Reads definitions tokens.now result }
{
    let mut list = Seq::new(alloc);
    let mut rest = tokens;
    'more: while is_name_next(Part::Class, rest) {
        if list.len() == MOST_LOCALS {
            return Err(refusal_at(rest, GrammarCode::TooManyLocals.code()));
        }
        let (next, after) = definition(alloc, rest)?;
        list.push(next)?;
        rest = after;
    }
    Ok((list, rest))
}

/// Reads `":" name "(" arguments? ")"`.
#[tactic(auto, unfolding(jdf_tree::specs::ClassGrammar::affinity))]
pub(crate) fn affinity(
    alloc: Global,
    tokens: &[Token],
) -> Result<((Word, Seq<ArgTree>), &[Token]), ReadRefusal>
    ensures { Reads affinity tokens.now result }
{
    let (_, rest) = expect(tokens, Terminal::Colon)?;
    let (collection, rest) = name(alloc, Part::Class, rest)?;
    let (arguments, rest) = call(alloc, rest)?;
    Ok(((collection, arguments), rest))
}
