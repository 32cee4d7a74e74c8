//! The tokens of a text, or its first token fault.

ghost use Rattle.std.specs.Prelude.{◌≡◌, ◌+◌, ◌++◌, ◌<◌, ◌≤◌, [], ◌∷◌, length, Ok, Err, Some, IfOk};
ghost use Rattle.ptg_base.specs.Limits.{most_bytes, most_tokens};
ghost use Rattle.jdf_lex.specs.declared.fault.JdfCode.TheVariants.{Unclosed, TooManyTokens};
ghost use Rattle.jdf_lex.specs.declared.fault.JdfFault.{JdfFault};
ghost use Rattle.ptg_base.specs.Returns.{FindsOrRefuses};
ghost use Rattle.ptg_base.specs.declared.refusal.Refusal.TheVariants.{Fault};
ghost use Rattle.jdf_lex.specs.declared.lexical_unit.LexicalUnit.TheVariants.{TokenOf};
ghost use Rattle.grammar_core.specs.declared.token.Spot.{Spot};
ghost use Rattle.grammar_core.specs.declared.token.Token.{Token};
ghost use Rattle.jdf_lex.specs.Tokens.{IsTokenFault, IsTokensOf};
ghost use Rattle.jdf_lex.specs.Reading.{front_unit, token_here, IsScanned};

use crate::cursor::{Cursor, advance};
use crate::fault::{JdfCode, JdfRefusal, fault_at};
use crate::front::front_unit;
use crate::kind::TokenKind;
use crate::lexical_unit::LexicalUnit;
use crate::terminal::Terminal;
use crate::token::Lexed;
use grammar_core::{Spot, Token};
use ptg_base::{Seq, Text};
use std::alloc::Global;

// The most tokens that a text may have.
const MOST_TOKENS: usize = 1_000_000;

// The kind and the length of the token at a position.
#[derive(Clone, Copy)]
struct FrontToken {
    kind: TokenKind,
    len: usize,
}

// Adds the token of this kind and length at the cursor, unless there are already 1,000,000.
fn add_token(
    alloc: Global,
    text: &[u8],
    here: Cursor,
    front: FrontToken,
    tokens: &mut Seq<Token>,
) -> Result<(), JdfRefusal>
    requires small { length text.now ≤ most_bytes }
    requires inside { here.index + front.len ≤ length text.now }
    ensures at_most { IfOk result (λ _. length tokens.old < most_tokens) }
    ensures added { IfOk result (λ _. tokens.new ≡ tokens.old ++ token_here text.now here front.kind front.len ∷ []) }
    ensures refused { (f : JdfFault) → result ≡ Err (Fault f)
        → (f ≡ record { spot = here.spot; code = TooManyTokens }) × (most_tokens ≤ length tokens.old) }
{
    if tokens.len() >= MOST_TOKENS {
        return Err(fault_at(here.spot, JdfCode::TooManyTokens));
    }
    let end = here.index + front.len;
    let word = Text::of(alloc, &text[here.index..end])?;
    tokens.push(Token {
        terminal: Terminal::spelled(front.kind, &text[here.index..end]).number(),
        text: word,
        start: here.index as u32,
        end: end as u32,
        spot: here.spot,
    })?;
    Ok(())
}

// Reads the lexical unit at the cursor, adds it to the tokens if it is one, and returns the cursor after it.
fn read_unit(
    alloc: Global,
    text: &[u8],
    here: Cursor,
    tokens: &mut Seq<Token>,
) -> Result<Cursor, JdfRefusal>
    requires small { length text.now ≤ most_bytes }
    requires scanned { IsScanned text.now tokens.old here }
    requires inside { here.index < length text.now }
    ensures progress { IfOk result (λ next. here.index < next.index) }
    ensures scanned { IfOk result (λ next. IsScanned text.now tokens.new next) }
    ensures refused { (f : JdfFault) → result ≡ Err (Fault f) → IsTokenFault text.now f }
{
    let Some((unit, len)) = front_unit(&text[here.index..]) else {
        return Err(fault_at(here.spot, JdfCode::Unclosed));
    };
    let next = advance(text, here, len);
    if let LexicalUnit::TokenOf(kind) = unit {
        add_token(alloc, text, here, FrontToken { kind, len }, tokens)?;
        return Ok(next);
    }
    Ok(next)
}

// The tokens of a text as bytes.
fn lex(alloc: Global, text: &[u8]) -> Result<Lexed, JdfRefusal>
    requires { length text.now ≤ most_bytes }
    ensures found { IfOk result (IsTokensOf text.now) }
    ensures fault { (f : JdfFault) → result ≡ Err (Fault f) → IsTokenFault text.now f }
{
    let mut tokens = Seq::new(alloc);
    let mut here = Cursor {
        index: 0,
        spot: Spot { line: 1, column: 1 },
    };
    while here.index < text.len() {
        here = read_unit(alloc, text, here, &mut tokens)?;
    }
    Ok(Lexed {
        tokens,
        end: here.spot,
    })
}

/// The tokens of a text, at most 1,000,000, and the spot after its last byte; or its first token fault.
///
/// Each byte is read a bounded number of times; no clause says so.
pub fn tokens(alloc: Global, text: &str) -> Result<Lexed, JdfRefusal>
    requires { length text.now ≤ most_bytes }
    // A list that is returned is the list of the text's tokens; a fault is the first one.
    ensures exact { FindsOrRefuses (IsTokensOf text.now) (IsTokenFault text.now) result }
{
    lex(alloc, text.as_bytes())
}
