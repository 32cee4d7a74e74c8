//! Reads classes, and skips the extern blocks and option lines between them.

ghost use Rattle.std.specs.Prelude.{◌≡◌};
ghost use Rattle.ptg_base.specs.Returns.{Returns};
ghost use Rattle.grammar_core.specs.Production.{opt, star};
ghost use Rattle.jdf_lex.specs.Sets.{starts};
ghost use Rattle.jdf_tree.specs.ClassGrammar.{priority, class};
ghost use Rattle.jdf_tree.specs.Grammar.{skip, class_and_skips, classes};
ghost use Rattle.jdf_tree.specs.Reads.{Reads};
ghost use Rattle.jdf_tree.specs.GrammarParts.{any};
ghost use Rattle.jdf_read.specs.Next.{past, is_skip, class_rest};

use crate::body::body;
use crate::flow::flows;
use crate::head::{affinity, definitions, signature};
use expr_read::{is_name_next, outer};
use grammar_core::{ReadRefusal, refusal_at};
use jdf_lex::{GrammarCode, Terminal, Token, expect, is_next};
use jdf_tree::{ClassTree, ExprTree, Part, Word};
use ptg_base::Seq;
use std::alloc::Global;

// How many classes a text may have.
const MOST_CLASSES: usize = 64;

// `(";" expr)?`
#[tactic(auto, unfolding(jdf_tree::specs::ClassGrammar::priority))]
fn priority(alloc: Global, tokens: &[Token]) -> Result<(Option<ExprTree>, &[Token]), ReadRefusal>
    ensures { Reads (opt priority) tokens.now result }
{
    if !is_next(tokens, Terminal::Semicolon) {
        return Ok((None, tokens));
    }
    let (_, rest) = expect(tokens, Terminal::Semicolon)?;
    let (priority, rest) = outer(alloc, Part::Class, rest)?;
    Ok((Some(priority.tree), rest))
}

// `definition* affinity flow* priority? body`: a class after its name and its parameters.
#[tactic(auto, unfolding(jdf_tree::specs::ClassGrammar::rest))]
fn class_rest(
    alloc: Global,
    name: Word,
    params: Seq<Word>,
    tokens: &[Token],
) -> Result<(ClassTree, &[Token]), ReadRefusal>
    ensures { Reads (class_rest (name, params)) tokens.now result }
{
    let (defs, rest) = definitions(alloc, tokens)?;
    let ((affinity, affinity_args), rest) = affinity(alloc, rest)?;
    let (flows, rest) = flows(alloc, rest)?;
    let (priority, rest) = priority(alloc, rest)?;
    let ((body, finish), rest) = body(alloc, rest)?;
    Ok((
        ClassTree {
            name,
            params,
            defs,
            affinity,
            affinity_args,
            flows,
            priority,
            body,
            finish,
        },
        rest,
    ))
}

// A class: its name and parameters, then the rest.
#[tactic(auto, using(crate::proofs::Parts::class_reads))]
fn class(alloc: Global, tokens: &[Token]) -> Result<(ClassTree, &[Token]), ReadRefusal>
    ensures { Reads class tokens.now result }
{
    let ((name, params), rest) = signature(alloc, tokens)?;
    class_rest(alloc, name, params, rest)
}

/// Whether an extern block or an option line is next.
pub(crate) fn is_skip_next(tokens: &[Token]) -> bool
    ensures { result ≡ starts is_skip tokens.now }
{
    is_next(tokens, Terminal::Extern) || is_next(tokens, Terminal::OptionLine)
}

/// Skips `extern Quoted Raw | OptionLine`, and returns the tokens after it.
#[tactic(auto, unfolding(jdf_tree::specs::Grammar::skip))]
pub(crate) fn past_skip(tokens: &[Token]) -> Result<&[Token], ReadRefusal>
    ensures { Returns (λ rest. rest.now) result (past skip tokens.now) }
{
    if !is_next(tokens, Terminal::Extern) {
        let (_, rest) = expect(tokens, Terminal::OptionLine)?;
        return Ok(rest);
    }
    let (_, rest) = expect(tokens, Terminal::Extern)?;
    let (_, rest) = expect(rest, Terminal::Quoted)?;
    let (_, rest) = expect(rest, Terminal::Raw)?;
    Ok(rest)
}

// Skips all extern blocks and option lines that are next, and returns the tokens after them.
#[tactic(auto, using(crate::proofs::Skips::skips_go_on, crate::proofs::Skips::skips_fail, crate::proofs::Skips::skips_end))]
fn past_skips(tokens: &[Token]) -> Result<&[Token], ReadRefusal>
    ensures { Returns (λ rest. rest.now) result (past (star any skip) tokens.now) }
{
    let mut rest = tokens;
    'more: while is_skip_next(rest) {
        rest = past_skip(rest)?;
    }
    Ok(rest)
}

// `class skip*`
fn class_and_skips(alloc: Global, tokens: &[Token]) -> Result<(ClassTree, &[Token]), ReadRefusal>
    ensures { Reads class_and_skips tokens.now result }
{
    let (class, rest) = class(alloc, tokens)?;
    let rest = past_skips(rest)?;
    Ok((class, rest))
}

/// Reads the classes of a text, and skips the extern blocks and option lines after each.
pub(crate) fn classes(
    alloc: Global,
    tokens: &[Token],
) -> Result<(Seq<ClassTree>, &[Token]), ReadRefusal>
    ensures { Reads classes tokens.now result }
{
    let (first, mut rest) = class_and_skips(alloc, tokens)?;
    let mut list = Seq::new(alloc);
    list.push(first)?;
    'more: while is_name_next(Part::Class, rest) {
        if list.len() == MOST_CLASSES {
            return Err(refusal_at(rest, GrammarCode::TooManyClasses.code()));
        }
        let (next, after) = class_and_skips(alloc, rest)?;
        list.push(next)?;
        rest = after;
    }
    Ok((list, rest))
}
