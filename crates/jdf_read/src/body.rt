//! Reads bodies, which are kept as their tokens.

ghost use Rattle.std.specs.Prelude.{◌≡◌, ◌≤◌, length, IfOk};
ghost use Rattle.std.specs.List.{prefix_len};
ghost use Rattle.jdf_lex.specs.Sets.{starts};
ghost use Rattle.jdf_lex.specs.Terminals.{terminal_of};
ghost use Rattle.jdf_tree.specs.ClassGrammar.{is_in_body, begins_body, body_tokens, body};
ghost use Rattle.jdf_tree.specs.Reads.{Reads};
ghost use Rattle.jdf_tree.specs.GrammarParts.{maybe};

use crate::head::past_properties;
use grammar_core::ReadRefusal;
use jdf_lex::{Spot, Terminal, Token, expect, is_next};
use ptg_base::{OutOfMemory, Seq, Text};
use std::alloc::Global;

// Whether a token of this terminal may be in a body.
fn is_in_body(terminal: Terminal) -> bool
    ensures { result ≡ is_in_body terminal }
{
    !matches!(
        terminal,
        Terminal::End | Terminal::Quoted | Terminal::Raw | Terminal::OptionLine | Terminal::Other
    )
}

// Whether the next token may be the first one of a body.
fn is_body_next(tokens: &[Token]) -> bool
    ensures { result ≡ starts begins_body tokens.now }
{
    match tokens.split_first() {
        None => false,
        Some((first, _)) => is_in_body(Terminal::of(first))
            && !is_next(tokens, Terminal::LeftBracket),
    }
}

// The number of tokens up to the first that may not be in a body.
fn body_len(tokens: &[Token]) -> usize
    ensures value { result ≡ prefix_len (λ x. is_in_body (terminal_of x)) tokens.now }
    ensures within { result ≤ length tokens.now }
{
    tokens
        .iter()
        .take_while(|token| is_in_body(Terminal::of(token)))
        .count()
}

// A copy of a token.
fn copy_of(alloc: Global, token: &Token) -> Result<Token, OutOfMemory>
    ensures { IfOk result (λ copy. copy ≡ token.now) }
{
    Ok(Token {
        terminal: token.terminal,
        text: Text::of(alloc, token.text.bytes())?,
        start: token.start,
        end: token.end,
        spot: token.spot,
    })
}

// Copies of tokens.
fn copies_of(alloc: Global, tokens: &[Token]) -> Result<Seq<Token>, OutOfMemory>
    ensures { IfOk result (λ copies. copies ≡ tokens.now) }
{
    let mut copies = Seq::new(alloc);
    for token in tokens {
        copies.push(copy_of(alloc, token)?)?;
    }
    Ok(copies)
}

// The tokens of a body, which may be none, copied.
#[tactic(auto, using(crate::proofs::Runs::body_is, crate::proofs::Runs::no_body))]
fn body_tokens(alloc: Global, tokens: &[Token]) -> Result<(Seq<Token>, &[Token]), ReadRefusal>
    ensures { Reads (maybe body_tokens) tokens.now result }
{
    if !is_body_next(tokens) {
        return Ok((Seq::new(alloc), tokens));
    }
    let (body, rest) = tokens.split_at(body_len(tokens));
    Ok((copies_of(alloc, body)?, rest))
}

/// Reads `BODY properties? tokens? END`: the tokens, and the spot of `END`.
pub(crate) fn body(
    alloc: Global,
    tokens: &[Token],
) -> Result<((Seq<Token>, Spot), &[Token]), ReadRefusal>
    ensures { Reads body tokens.now result }
{
    let (_, rest) = expect(tokens, Terminal::Body)?;
    let rest = past_properties(rest)?;
    let (body, rest) = body_tokens(alloc, rest)?;
    let (end, rest) = expect(rest, Terminal::End)?;
    Ok(((body, end.spot), rest))
}
