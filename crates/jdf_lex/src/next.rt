//! Tests of the next token.

ghost use Rattle.std.specs.Prelude.{◌≡◌};
ghost use Rattle.jdf_lex.specs.Terminals.{is};
ghost use Rattle.jdf_lex.specs.Sets.{starts, token_at};
ghost use Rattle.ptg_base.specs.Returns.{Returns};

use crate::terminal::Terminal;
use grammar_core::{Code, ReadRefusal, Token, refusal_at};

/// Whether the next token is this terminal.
pub fn is_next(tokens: &[Token], wanted: Terminal) -> bool
    ensures { result ≡ starts (is wanted) tokens.now }
{
    match tokens.split_first() {
        None => false,
        Some((first, _)) => wanted == Terminal::of(first),
    }
}

/// Takes the next token if it is this terminal: returns it and the tokens after it. Else refuses with `Syntax` at the
/// next token.
pub fn expect(tokens: &[Token], wanted: Terminal) -> Result<(&Token, &[Token]), ReadRefusal>
    ensures { Returns (λ (token, rest). (token.now, rest.now)) result (token_at (is wanted) tokens.now) }
{
    match tokens.split_first() {
        Some((first, rest)) if wanted == Terminal::of(first) => Ok((first, rest)),
        _ => Err(refusal_at(tokens, Code::Syntax)),
    }
}
