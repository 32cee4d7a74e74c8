//! Reads flows.

ghost use Rattle.std.specs.Prelude.{◌≡◌, MatchOption, true, false};
ghost use Rattle.jdf_lex.specs.Sets.{starts};
ghost use Rattle.jdf_tree.specs.ClassGrammar.{is_kind, kind_by, kind_of_flow, flow, flows};
ghost use Rattle.jdf_tree.specs.Reads.{Reads};

use crate::dependence::dependences;
use expr_read::name;
use grammar_core::{Code, ReadRefusal, refusal_at};
use jdf_lex::{GrammarCode, Terminal, Token};
use jdf_tree::{FlowTree, Part};
use ptg_base::{MOST_FLOWS, Seq};
use std::alloc::Global;
use term_core::FlowKind;

// The kind of flows that this terminal names, if it names one.
fn kind_by(terminal: Terminal) -> Option<FlowKind>
    ensures { MatchOption result (is_kind terminal ≡ false) (λ kind.
        (is_kind terminal ≡ true) × (kind ≡ kind_by terminal)) }
{
    match terminal {
        Terminal::Read => Some(FlowKind::Read),
        Terminal::Write => Some(FlowKind::Write),
        Terminal::Rw => Some(FlowKind::Rw),
        Terminal::Ctl => Some(FlowKind::Ctl),
        _ => None,
    }
}

// Whether a kind of flow is next.
fn is_kind_next(tokens: &[Token]) -> bool
    ensures { result ≡ starts is_kind tokens.now }
{
    match tokens.split_first() {
        None => false,
        Some((first, _)) => kind_by(Terminal::of(first)).is_some(),
    }
}

// `READ | WRITE | RW | CTL`
#[tactic(auto, unfolding(jdf_tree::specs::ClassGrammar::kind_of_flow))]
fn kind_of_flow(tokens: &[Token]) -> Result<(FlowKind, &[Token]), ReadRefusal>
    ensures { Reads kind_of_flow tokens.now result }
{
    let Some((first, rest)) = tokens.split_first() else {
        return Err(refusal_at(tokens, Code::Syntax));
    };
    match kind_by(Terminal::of(first)) {
        Some(kind) => Ok((kind, rest)),
        None => Err(refusal_at(tokens, Code::Syntax)),
    }
}

// `kind name dependence*`
#[tactic(auto, unfolding(jdf_tree::specs::ClassGrammar::flow))]
fn flow(alloc: Global, tokens: &[Token]) -> Result<(FlowTree, &[Token]), ReadRefusal>
    ensures { Reads flow tokens.now result }
{
    let (kind, rest) = kind_of_flow(tokens)?;
    let (name, rest) = name(alloc, Part::Class, rest)?;
    let (deps, rest) = dependences(alloc, rest)?;
    Ok((FlowTree { kind, name, deps }, rest))
}

/// Reads the flows of a class.
pub(crate) fn flows(
    alloc: Global,
    tokens: &[Token],
) -> Result<(Seq<FlowTree>, &[Token]), ReadRefusal>
    ensures { Reads flows tokens.now result }
{
    let mut list = Seq::new(alloc);
    let mut rest = tokens;
    'more: while is_kind_next(rest) {
        if list.len() == MOST_FLOWS {
            return Err(refusal_at(rest, GrammarCode::TooManyFlows.code()));
        }
        let (next, after) = flow(alloc, rest)?;
        list.push(next)?;
        rest = after;
    }
    Ok((list, rest))
}
