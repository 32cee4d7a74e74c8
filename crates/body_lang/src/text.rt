//! Reads the text of a body as a whole.

ghost use Rattle.ptg_base.specs.Returns.{FindsOrRefuses, Returns};
ghost use Rattle.grammar_core.specs.Reading.{whole};
ghost use Rattle.jdf_tree.specs.BodyGrammar.{text, body};
ghost use Rattle.jdf_tree.specs.Grammar.{productions};
ghost use Rattle.jdf_tree.specs.Reads.{Reads};
ghost use Rattle.body_lang.specs.Text.{IsTree, IsFaultBefore, IsTreeFault};

use crate::limits::{block_limit, variable_limit};
use crate::statement_text::{block, statements};
use expr_read::fault_at;
use grammar_core::{Code, ReadFault, ReadRefusal, refusal_at};
use jdf_lex::{GrammarCode, JdfRefusal, Spot, Terminal, Token, is_next};
use jdf_tree::BlockTree;
use std::alloc::Global;

// `block | statement*`, without the limits.
#[tactic(auto, using(crate::proofs::Begins::text_reads))]
fn text(alloc: Global, tokens: &[Token]) -> Result<(BlockTree, &[Token]), ReadRefusal>
    ensures { Reads text tokens.now result }
{
    if is_next(tokens, Terminal::LeftBrace) {
        return block(alloc, tokens);
    }
    statements(alloc, tokens)
}

// A body within its limits. The text is read only up to the first token past a limit, so no text makes the recursion
// deep.
#[tactic(auto, using(crate::proofs::Limited::within_limit, crate::proofs::Limited::slice, crate::proofs::Limited::fault, crate::proofs::Limited::cut_after, crate::proofs::Limited::cut_at_fault, crate::proofs::Limited::text_within, expr_read::proofs::Loops::reading_shrinks))]
fn body(alloc: Global, tokens: &[Token]) -> Result<(BlockTree, &[Token]), ReadRefusal>
    ensures { Reads body tokens.now result }
{
    let blocks = block_limit(tokens);
    let variables = variable_limit(tokens);
    let limit = blocks.min(variables);
    if tokens.len() <= limit {
        return text(alloc, tokens);
    }
    let code = if blocks <= variables {
        GrammarCode::TooDeep.code()
    } else {
        GrammarCode::TooManyVars.code()
    };
    let (window, after) = tokens.split_at(limit + 1);
    match text(alloc, window) {
        Ok((tree, rest)) if !rest.is_empty() => Ok((tree, &tokens[window.len() - rest.len()..])),
        Ok(_) => Err(refusal_at(&tokens[limit..], code)),
        Err(ReadRefusal::OutOfMemory) => Err(ReadRefusal::OutOfMemory),
        Err(ReadRefusal::Fault(ReadFault { left: 0, .. })) => Err(refusal_at(
            &tokens[limit..],
            code,
        )),
        Err(ReadRefusal::Fault(ReadFault { left, code })) => Err(ReadRefusal::Fault(ReadFault {
            left: left + after.len(),
            code,
        })),
    }
}

// A body that takes all of the tokens.
fn whole(alloc: Global, tokens: &[Token]) -> Result<BlockTree, ReadRefusal>
    ensures { Returns (λ tree. tree) result (whole productions body tokens.now) }
{
    let (tree, rest) = body(alloc, tokens)?;
    if !rest.is_empty() {
        return Err(refusal_at(rest, Code::Syntax));
    }
    Ok(tree)
}

/// Reads the statements of a body. If its text has a fault, returns the code of the first one with the number of tokens
/// that are left there. What the names mean is not checked.
pub fn tree(alloc: Global, tokens: &[Token]) -> Result<BlockTree, ReadRefusal>
    // What is read is the tree of the text; a fault is its first one.
    ensures exact { FindsOrRefuses (IsTree tokens.now) (IsFaultBefore tokens.now) result }
{
    whole(alloc, tokens)
}

/// Reads the statements of a body, or returns the first fault of its text: Syntax, BadNumber, ExprTooLong, TooDeep or
/// TooManyVars. If the tokens end too early, the fault is Syntax at `finish`, the spot after them. What the names mean
/// is not checked.
pub fn read(alloc: Global, tokens: &[Token], finish: Spot) -> Result<BlockTree, JdfRefusal>
    // What is read is the tree of the text; a fault is its first one.
    ensures exact { FindsOrRefuses (IsTree tokens.now) (IsTreeFault tokens.now finish) result }
{
    match whole(alloc, tokens) {
        Ok(tree) => Ok(tree),
        Err(ReadRefusal::OutOfMemory) => Err(JdfRefusal::OutOfMemory),
        Err(ReadRefusal::Fault(fault)) => {
            let index = tokens.len().saturating_sub(fault.left);
            Err(JdfRefusal::Fault(fault_at(tokens, finish, index, fault.code)))
        }
    }
}
