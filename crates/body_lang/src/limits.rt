//! Where a body exceeds its limits.

ghost use Rattle.std.specs.Prelude.{◌≡◌, ◌-◌, ◌&&◌, if◌then◌else◌};
ghost use Rattle.jdf_lex.specs.declared.terminal.Terminal.TheVariants.{LeftBrace};
ghost use Rattle.jdf_lex.specs.Sets.{starts};
ghost use Rattle.jdf_lex.specs.Terminals.{is};
ghost use Rattle.jdf_tree.specs.BodyLimits.{block_limit, variable_limit, declares, most_blocks};

use jdf_lex::{Terminal, Token, is_next};
use ptg_base::MOST_VARIABLES;

// How deep blocks may be nested. The braces around a whole body do not count.
const MOST_NESTED: usize = 32;

// 1 if it holds, else 0; for counting.
fn one_if(holds: bool) -> usize
    ensures { result ≡ (if holds then 1 else 0) }
{
    if holds { 1 } else { 0 }
}

// How many blocks may be open before a brace opens one more. The braces around a whole body do not count.
fn most_blocks(tokens: &[Token]) -> usize
    ensures { result ≡ most_blocks tokens.now }
{
    if is_next(tokens, Terminal::LeftBrace) {
        MOST_NESTED + 1
    } else {
        MOST_NESTED
    }
}

// Whether the next token begins the declaration of a variable or a loop.
fn is_variable_next(tokens: &[Token]) -> bool
    ensures { result ≡ starts declares tokens.now }
{
    is_next(tokens, Terminal::Int) || is_next(tokens, Terminal::For)
}

/// The index of the first brace that opens a block too deep; if none does, the number of tokens plus 1.
pub(crate) fn block_limit(tokens: &[Token]) -> usize
    ensures { result ≡ block_limit.at tokens.now }
{
    let most = most_blocks(tokens);
    let mut opened: usize = 0;
    let mut closed: usize = 0;
    for index in 0..tokens.len() {
        let rest = &tokens[index..];
        let opens = is_next(rest, Terminal::LeftBrace);
        if opens && opened.saturating_sub(closed) >= most {
            return index;
        }
        opened += one_if(opens);
        closed += one_if(is_next(rest, Terminal::RightBrace));
    }
    tokens.len() + 1
}

/// The index of the first declaration that is too many; if none is, the number of tokens plus 1. A loop declares its
/// variable.
pub(crate) fn variable_limit(tokens: &[Token]) -> usize
    ensures { result ≡ variable_limit.at tokens.now }
{
    let mut declared: usize = 0;
    for index in 0..tokens.len() {
        let declares = is_variable_next(&tokens[index..]);
        if declares && declared >= MOST_VARIABLES {
            return index;
        }
        declared += one_if(declares);
    }
    tokens.len() + 1
}
