//! Reads a whole text from its bytes.

ghost use Rattle.std.specs.Prelude.{◌≡◌, ◌-◌, ◌≤◌, ◌==◌, not, count_by, Ok, Err, Some, None, IfOk, length, slice_get};
ghost use Rattle.std.specs.List.{suffix_len};
ghost use Rattle.ptg_base.specs.Limits.{most_bytes};
ghost use Rattle.jdf_lex.specs.declared.fault.JdfCode.TheVariants.{Truncated};
ghost use Rattle.jdf_lex.specs.declared.fault.JdfFault.{JdfFault};
ghost use Rattle.ptg_base.specs.declared.refusal.Refusal.TheVariants.{Fault, OutOfMemory};
ghost use Rattle.grammar_core.specs.declared.token.Token.{Token};
ghost use Rattle.jdf_lex.specs.Tokens.{spot_after};
ghost use Rattle.ptg_base.specs.Returns.{FindsOrRefuses, Returns};
ghost use Rattle.grammar_core.specs.Reading.{whole};
ghost use Rattle.jdf_tree.specs.declared.tree.Jdf.{Jdf};
ghost use Rattle.jdf_tree.specs.Grammar.{productions, file};
ghost use Rattle.jdf_tree.specs.Jdf.{IsJdf};
ghost use Rattle.jdf_tree.specs.Fault.{IsJdfFault, code_at_token};

use crate::globals::file;
use grammar_core::{Code, ReadRefusal, refusal_at};
use jdf_lex::{JdfCode, JdfFault, JdfRefusal, Lexed, Spot, Token, tokens};
use jdf_tree::{Jdf, code_at_token};
use ptg_base::MOST_BYTES;
use std::alloc::Global;

// Reads all of the tokens as one text.
fn whole(alloc: Global, tokens: &[Token]) -> Result<Jdf, ReadRefusal>
    ensures { Returns (λ jdf. jdf) result (whole productions file tokens.now) }
{
    let (jdf, rest) = file(alloc, tokens)?;
    if !rest.is_empty() {
        return Err(refusal_at(rest, Code::Syntax));
    }
    Ok(jdf)
}

// The number of line ends in these bytes.
fn lines_in(front: &[u8]) -> usize
    ensures value { result ≡ count_by (λ b. b == 10) front.now }
    ensures within { result ≤ length front.now }
{
    front.iter().filter(|b| **b == b'\n').count()
}

// The number of bytes after the last line end.
fn columns_in(front: &[u8]) -> usize
    ensures value { result ≡ suffix_len (λ b. not (b == 10)) front.now }
    ensures within { result ≤ length front.now }
{
    front.iter().rev().take_while(|b| **b != b'\n').count()
}

// The spot after these bytes.
fn spot_after(front: &[u8]) -> Spot
    requires { length front.now ≤ most_bytes }
    ensures { result ≡ spot_after front.now }
{
    Spot {
        line: 1 + lines_in(front) as u32,
        column: 1 + columns_in(front) as u32,
    }
}

// The fault with this code if this many tokens are left: at the first of these, or Truncated at the end.
fn grammar_fault(lexed: &Lexed, left: usize, code: Code) -> JdfFault
    ensures at_token { (token : Token) → slice_get lexed.now.tokens (length lexed.now.tokens - left) ≡ Some token
        → result ≡ record { spot = token.spot; code = code_at_token code } }
    ensures at_end { slice_get lexed.now.tokens (length lexed.now.tokens - left) ≡ None
        → result ≡ record { spot = lexed.now.end; code = Truncated } }
{
    let tokens = lexed.tokens.as_slice();
    match tokens.get(tokens.len().saturating_sub(left)) {
        Some(token) => JdfFault {
            spot: token.spot,
            code: code_at_token(code),
        },
        None => JdfFault {
            spot: lexed.end,
            code: JdfCode::Truncated,
        },
    }
}

// The tree of a text that is UTF-8 and not too long, or its first fault.
fn read_text(alloc: Global, text: &str) -> Result<Jdf, JdfRefusal>
    requires { length text.now ≤ most_bytes }
    ensures found { IfOk result (λ jdf. IsJdf text.now jdf) }
    ensures fault { (f : JdfFault) → result ≡ Err (Fault f) → IsJdfFault text.now f }
{
    let lexed = tokens(alloc, text)?;
    match whole(alloc, lexed.tokens.as_slice()) {
        Ok(jdf) => Ok(jdf),
        Err(ReadRefusal::OutOfMemory) => Err(JdfRefusal::OutOfMemory),
        Err(ReadRefusal::Fault(fault)) => Err(JdfRefusal::Fault(grammar_fault(
            &lexed, fault.left, fault.code,
        ))),
    }
}

// The tree of a text, or its first fault.
fn read_bytes(alloc: Global, bytes: &[u8]) -> Result<Jdf, JdfRefusal>
    ensures found { IfOk result (λ jdf. IsJdf bytes.now jdf) }
    ensures fault { (f : JdfFault) → result ≡ Err (Fault f) → IsJdfFault bytes.now f }
{
    if bytes.len() > MOST_BYTES {
        return Err(JdfRefusal::Fault(JdfFault {
            spot: Spot { line: 1, column: 1 },
            code: JdfCode::TooLong,
        }));
    }
    match str::from_utf8(bytes) {
        Ok(text) => read_text(alloc, text),
        Err(error) => Err(JdfRefusal::Fault(JdfFault {
            spot: spot_after(&bytes[..error.valid_up_to()]),
            code: JdfCode::NotUtf8,
        })),
    }
}

/// Reads a JDF text: returns its tree, or its first fault.
pub fn read(alloc: Global, bytes: &[u8]) -> Result<Jdf, JdfRefusal>
    ensures exact { FindsOrRefuses (IsJdf bytes.now) (IsJdfFault bytes.now) result }
{
    read_bytes(alloc, bytes)
}
