//! Reads numbers.

ghost use Rattle.std.specs.Prelude.{◌≡◌, pos, true, false, MatchOption};
ghost use Rattle.jdf_tree.specs.ExpressionGrammar.{number};
ghost use Rattle.jdf_tree.specs.Reads.{Reads};
ghost use Rattle.jdf_tree.specs.Numbers.{decimal, is_number, has_leading_zero};

use grammar_core::{ReadRefusal, refusal_at};
use jdf_lex::{GrammarCode, Terminal, Token, expect};
use jdf_tree::{ExprTree, ExprWithSpot};
use ptg_base::{MOST_NUMBER, decimal};

// Whether a number of several digits begins with 0.
fn has_leading_zero(text: &[u8]) -> bool
    ensures { result ≡ has_leading_zero text.now }
{
    text.len() > 1 && text[0] == b'0'
}

// The number that the text spells; None if it is not decimal, has a leading zero, or is larger than `MOST_NUMBER`.
#[tactic(auto, unfolding(jdf_tree::specs::Numbers::is_number))]
fn value(text: &[u8]) -> Option<i64>
    ensures { MatchOption result (is_number text.now ≡ false) (λ z.
        (is_number text.now ≡ true) × (z ≡ pos (decimal text.now))) }
{
    if has_leading_zero(text) {
        return None;
    }
    let number = decimal(text, MOST_NUMBER)?;
    Some(number as i64)
}

/// Takes the next token if it is a number: returns its tree and the tokens after it. Refuses with `BadNumber` a number
/// that is not decimal, has a leading zero or is too large, and with `Syntax` any other token.
#[tactic(auto, unfolding(jdf_tree::specs::ExpressionGrammar::number))]
pub(crate) fn number(tokens: &[Token]) -> Result<(ExprWithSpot, &[Token]), ReadRefusal>
    ensures { Reads number tokens.now result }
{
    let (token, rest) = expect(tokens, Terminal::Number)?;
    match value(token.text.bytes()) {
        Some(z) => Ok((
            ExprWithSpot {
                spot: token.spot,
                tree: ExprTree::num(z, token.spot),
            },
            rest,
        )),
        None => Err(refusal_at(tokens, GrammarCode::BadNumber.code())),
    }
}
