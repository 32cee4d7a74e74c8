//! Reads the globals before the first class, and the whole text.

ghost use Rattle.std.specs.Prelude.{◌≡◌};
ghost use Rattle.jdf_tree.specs.Grammar.{file};
ghost use Rattle.jdf_tree.specs.Reads.{Reads};
ghost use Rattle.jdf_read.specs.Next.{is_class, leading};

use crate::class::{classes, is_skip_next, past_skip};
use crate::head::past_properties;
use expr_read::{is_name_next, name};
use grammar_core::ReadRefusal;
use jdf_lex::{Terminal, Token, is_next};
use jdf_tree::{Jdf, Part, Word};
use ptg_base::Seq;
use std::alloc::Global;

// Whether a class is next: a name before `(`.
fn is_class_next(tokens: &[Token]) -> bool
    ensures { result ≡ is_class tokens.now }
{
    match tokens.split_first() {
        None => false,
        Some((_, rest)) => is_name_next(Part::Class, tokens) && is_next(rest, Terminal::LeftParen),
    }
}

// Reads one part before the first class: an extern block or option line, which is skipped, or a global and its
// properties.
fn leading(alloc: Global, tokens: &[Token]) -> Result<(Option<Word>, &[Token]), ReadRefusal>
    ensures { Reads leading tokens.now result }
{
    if is_skip_next(tokens) {
        let rest = past_skip(tokens)?;
        return Ok((None, rest));
    }
    let (global, rest) = name(alloc, Part::Class, tokens)?;
    let rest = past_properties(rest)?;
    Ok((Some(global), rest))
}

/// Reads a text: globals and skipped parts, then the classes.
pub(crate) fn file(alloc: Global, tokens: &[Token]) -> Result<(Jdf, &[Token]), ReadRefusal>
    ensures { Reads file tokens.now result }
{
    let mut globals = Seq::new(alloc);
    let mut rest = tokens;
    'more: while !is_class_next(rest) {
        let (global, after) = leading(alloc, rest)?;
        if let Some(global) = global {
            globals.push(global)?;
        }
        rest = after;
    }
    let (classes, rest) = classes(alloc, rest)?;
    Ok((Jdf { globals, classes }, rest))
}
