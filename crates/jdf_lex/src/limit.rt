//! How long an expression may be.

ghost use Rattle.std.specs.Prelude.{◌≡◌};
ghost use Rattle.jdf_lex.specs.Counted.{expression_limit, is_counted};

use crate::terminal::Terminal;
use grammar_core::Token;

// How many tokens an expression may have.
const MOST_EXPRESSION_TOKENS: usize = 512;

// How many of its tokens may be names, numbers, operators or `?`.
const MOST_COUNTED: usize = 128;

// Whether this terminal is a name outside of bodies, a number, an operator or `?`.
#[tactic(auto, unfolding(crate::specs::Counted::is_counted))]
fn is_counted(terminal: Terminal) -> bool
    ensures { result ≡ is_counted terminal }
{
    match terminal {
        Terminal::Name
        | Terminal::TypeWord
        | Terminal::Int
        | Terminal::If
        | Terminal::Else
        | Terminal::For
        | Terminal::Trap => true,
        Terminal::Number | Terminal::Question => true,
        Terminal::Plus | Terminal::Minus | Terminal::Star | Terminal::Slash | Terminal::Percent =>
            true,
        Terminal::Equal | Terminal::NotEqual => true,
        Terminal::Less | Terminal::AtMost | Terminal::Greater | Terminal::AtLeast => true,
        Terminal::And | Terminal::AndAnd | Terminal::Or | Terminal::OrOr | Terminal::Not => true,
        _ => false,
    }
}

/// The index of the first token that is too many for an expression that begins with these tokens.
pub fn expression_limit(tokens: &[Token]) -> usize
    ensures { result ≡ expression_limit.at tokens.now }
{
    let mut counted = 0;
    for (index, token) in tokens.iter().enumerate() {
        if index == MOST_EXPRESSION_TOKENS {
            return MOST_EXPRESSION_TOKENS;
        }
        if is_counted(Terminal::of(token)) {
            if counted == MOST_COUNTED {
                return index;
            }
            counted += 1;
        }
    }
    MOST_EXPRESSION_TOKENS
}
