//! Reads names.

ghost use Rattle.std.specs.Prelude.{◌≡◌, IfOk};
ghost use Rattle.jdf_lex.specs.Sets.{starts};
ghost use Rattle.jdf_tree.specs.GrammarParts.{name, names, word_of};
ghost use Rattle.jdf_tree.specs.Reads.{Reads};

use grammar_core::{Code, ReadRefusal, refusal_at};
use jdf_lex::{Terminal, Token};
use jdf_tree::{Part, Word};
use ptg_base::{OutOfMemory, Text};
use std::alloc::Global;

// Whether this terminal is a name in this part of a text.
fn is_name(part: Part, terminal: Terminal) -> bool
    ensures { result ≡ names part terminal }
{
    match terminal {
        Terminal::Name | Terminal::TypeWord => true,
        Terminal::Int | Terminal::If | Terminal::Else | Terminal::For | Terminal::Trap => part
            == Part::Class,
        _ => false,
    }
}

/// Whether a name of this part of a text is next.
pub fn is_name_next(part: Part, tokens: &[Token]) -> bool
    ensures { result ≡ starts (names part) tokens.now }
{
    match tokens.split_first() {
        None => false,
        Some((first, _)) => is_name(part, Terminal::of(first)),
    }
}

// A copy of a token's text, with its spot.
fn word_of(alloc: Global, token: &Token) -> Result<Word, OutOfMemory>
    ensures { IfOk result (λ w. w ≡ word_of token.now) }
{
    Ok(Word {
        text: Text::of(alloc, token.text.bytes())?,
        spot: token.spot,
    })
}

/// Takes the next token if it is a name of this part of a text: returns the name and the tokens after it. Else refuses
/// with `Syntax` at the next token.
pub fn name(alloc: Global, part: Part, tokens: &[Token]) -> Result<(Word, &[Token]), ReadRefusal>
    ensures { Reads (name part) tokens.now result }
{
    match tokens.split_first() {
        Some((first, rest)) if is_name(part, Terminal::of(first)) => Ok((
            word_of(alloc, first)?,
            rest,
        )),
        _ => Err(refusal_at(tokens, Code::Syntax)),
    }
}
