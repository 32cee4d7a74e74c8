//! Reads dependences.

ghost use Rattle.std.specs.Prelude.{◌≡◌};
ghost use Rattle.grammar_core.specs.Production.{opt};
ghost use Rattle.jdf_lex.specs.Sets.{pick, starts};
ghost use Rattle.jdf_tree.specs.ClassGrammar.{unguarded, guarded, arrow, is_arrow, direction_by, may_follow_target_name, datatype, dependence, dependences};
ghost use Rattle.jdf_tree.specs.Reads.{Reads};
ghost use Rattle.jdf_read.specs.Next.{is_target};

use crate::target::target;
use expr_read::{guard, is_name_next, name};
use grammar_core::{Code, ReadRefusal, refusal_at};
use jdf_lex::{GrammarCode, Terminal, Token, expect, is_next};
use jdf_tree::{DepTree, ExprTree, Part, TargetTree, Word};
use ptg_base::Seq;
use std::alloc::Global;
use term_core::Direction;

// How many dependences a flow may have.
const MOST_DEPENDENCES: usize = 16;

// A dependence after its arrow: its guard, the target if the guard holds, and the target if it does not.
type Choice = (Option<ExprTree>, TargetTree, Option<TargetTree>);

// A target without a guard.
#[tactic(auto, unfolding(jdf_tree::specs::ClassGrammar::unguarded))]
fn unguarded(alloc: Global, tokens: &[Token]) -> Result<(Choice, &[Token]), ReadRefusal>
    ensures { Reads unguarded tokens.now result }
{
    let (yes, rest) = target(alloc, tokens)?;
    Ok(((None, yes, None), rest))
}

// `guard "?" target (":" target)?`
#[tactic(auto, unfolding(jdf_tree::specs::ClassGrammar::guarded))]
fn guarded(alloc: Global, tokens: &[Token]) -> Result<(Choice, &[Token]), ReadRefusal>
    ensures { Reads guarded tokens.now result }
{
    let (guard, rest) = guard(alloc, tokens)?;
    let (_, rest) = expect(rest, Terminal::Question)?;
    let (yes, rest) = target(alloc, rest)?;
    if !is_next(rest, Terminal::Colon) {
        return Ok(((Some(guard.tree), yes, None), rest));
    }
    let (_, rest) = expect(rest, Terminal::Colon)?;
    let (no, rest) = target(alloc, rest)?;
    Ok(((Some(guard.tree), yes, Some(no)), rest))
}

// Whether a target is next, and not a guard.
fn is_target_next(tokens: &[Token]) -> bool
    ensures { result ≡ is_target tokens.now }
{
    match tokens.split_first() {
        None => false,
        Some((_, rest)) => {
            is_next(tokens, Terminal::New)
                || is_next(tokens, Terminal::Null)
                || (is_name_next(Part::Class, tokens)
                    && (is_name_next(Part::Class, rest) || is_next(rest, Terminal::LeftParen)))
        }
    }
}

// The targets after an arrow, with or without a guard. A name before a name or `(` begins a target.
#[tactic(auto, using(crate::proofs::Begins::choice_reads))]
fn choice(alloc: Global, tokens: &[Token]) -> Result<(Choice, &[Token]), ReadRefusal>
    ensures { Reads (pick may_follow_target_name unguarded guarded) tokens.now result }
{
    if is_target_next(tokens) {
        unguarded(alloc, tokens)
    } else {
        guarded(alloc, tokens)
    }
}

// Whether an arrow is next.
fn is_arrow_next(tokens: &[Token]) -> bool
    ensures { result ≡ starts is_arrow tokens.now }
{
    match tokens.split_first() {
        None => false,
        Some((first, _)) => matches!(Terminal::of(first), Terminal::Inward | Terminal::Outward),
    }
}

// The direction of an arrow: in for `<-`, else out.
fn direction_by(terminal: Terminal) -> Direction
    ensures { result ≡ direction_by terminal }
{
    match terminal {
        Terminal::Inward => Direction::In,
        _ => Direction::Out,
    }
}

// Takes an arrow: returns its direction, and the tokens after it.
#[tactic(auto, unfolding(jdf_tree::specs::ClassGrammar::arrow))]
fn arrow(tokens: &[Token]) -> Result<(Direction, &[Token]), ReadRefusal>
    ensures { Reads arrow tokens.now result }
{
    match tokens.split_first() {
        Some((first, rest)) if is_arrow_next(tokens) => Ok((
            direction_by(Terminal::of(first)),
            rest,
        )),
        _ => Err(refusal_at(tokens, Code::Syntax)),
    }
}

// `"[" type "=" name "]"`
#[tactic(auto, unfolding(jdf_tree::specs::ClassGrammar::datatype))]
fn datatype(alloc: Global, tokens: &[Token]) -> Result<(Word, &[Token]), ReadRefusal>
    ensures { Reads datatype tokens.now result }
{
    let (_, rest) = expect(tokens, Terminal::LeftBracket)?;
    let (_, rest) = expect(rest, Terminal::TypeWord)?;
    let (_, rest) = expect(rest, Terminal::Assign)?;
    let (datatype, rest) = name(alloc, Part::Class, rest)?;
    let (_, rest) = expect(rest, Terminal::RightBracket)?;
    Ok((datatype, rest))
}

// `datatype?`
#[tactic(auto, using(crate::proofs::Begins::datatype_begins))]
fn maybe_datatype(alloc: Global, tokens: &[Token]) -> Result<(Option<Word>, &[Token]), ReadRefusal>
    ensures { Reads (opt datatype) tokens.now result }
{
    if !is_next(tokens, Terminal::LeftBracket) {
        return Ok((None, tokens));
    }
    let (datatype, rest) = datatype(alloc, tokens)?;
    Ok((Some(datatype), rest))
}

// `arrow targets datatype?`
fn dependence(alloc: Global, tokens: &[Token]) -> Result<(DepTree, &[Token]), ReadRefusal>
    ensures { Reads dependence tokens.now result }
{
    let (direction, rest) = arrow(tokens)?;
    let ((guard, yes, no), rest) = choice(alloc, rest)?;
    let (datatype, rest) = maybe_datatype(alloc, rest)?;
    Ok((
        DepTree {
            direction,
            guard,
            yes,
            no,
            datatype,
        },
        rest,
    ))
}

/// Reads the dependences of a flow.
pub(crate) fn dependences(
    alloc: Global,
    tokens: &[Token],
) -> Result<(Seq<DepTree>, &[Token]), ReadRefusal>
    ensures { Reads dependences tokens.now result }
{
    let mut list = Seq::new(alloc);
    let mut rest = tokens;
    'more: while is_arrow_next(rest) {
        if list.len() == MOST_DEPENDENCES {
            return Err(refusal_at(rest, GrammarCode::TooManyDeps.code()));
        }
        let (next, after) = dependence(alloc, rest)?;
        list.push(next)?;
        rest = after;
    }
    Ok((list, rest))
}
