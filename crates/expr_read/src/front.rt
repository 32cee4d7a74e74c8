//! Reads an expression whose end is not known.

ghost use Rattle.std.specs.Prelude.{◌≡◌, ◌≤◌, length};
ghost use Rattle.ptg_base.specs.Returns.{FindsOrRefuses};
ghost use Rattle.expr_read.specs.Front.{part_of, fault_at, IsExpressionFrom, IsFaultFrom};

use crate::window::outer;
use grammar_core::{Code, ReadRefusal};
use jdf_lex::{JdfFault, JdfRefusal, Spot, Token};
use jdf_tree::{ExprTree, Part, code_at_token};
use std::alloc::Global;

// The part of a text: a body, in which expressions may have elements of tiles, or a class.
fn part_of(in_body: bool) -> Part
    ensures { result ≡ part_of in_body }
{
    if in_body { Part::Body } else { Part::Class }
}

/// The fault with this code at the token of index `token_index`, or at the spot `finish` if there is no such token.
pub fn fault_at(tokens: &[Token], finish: Spot, token_index: usize, code: Code) -> JdfFault
    ensures { result ≡ fault_at tokens.now finish token_index code }
{
    let spot = match tokens.get(token_index) {
        Some(token) => token.spot,
        None => finish,
    };
    JdfFault {
        spot,
        code: code_at_token(code),
    }
}

/// Reads the longest expression that begins at the token of index `from`. Returns its tree and the index of the token
/// after it. If `in_body`, it is an expression of a body. A fault after all tokens has the spot `finish`.
pub fn read_expr(
    alloc: Global,
    tokens: &[Token],
    from: usize,
    in_body: bool,
    finish: Spot,
) -> Result<(ExprTree, usize), JdfRefusal>
    requires { from ≤ length tokens.now }
    // What is returned is the expression that begins there; a fault is the first one.
    ensures exact { FindsOrRefuses (IsExpressionFrom (part_of in_body) tokens.now from)
        (IsFaultFrom (part_of in_body) tokens.now from finish) result }
{
    match outer(alloc, part_of(in_body), &tokens[from..]) {
        Ok((expression, rest)) => Ok((expression.tree, tokens.len() - rest.len())),
        Err(ReadRefusal::OutOfMemory) => Err(JdfRefusal::OutOfMemory),
        Err(ReadRefusal::Fault(fault)) => Err(JdfRefusal::Fault(fault_at(
            tokens,
            finish,
            tokens.len() - fault.left,
            fault.code,
        ))),
    }
}
