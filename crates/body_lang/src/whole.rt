//! Reads a whole body.

ghost use Rattle.std.specs.Prelude.{◌≤◌, ◌-◌, length, IfOk};
ghost use Rattle.ptg_base.specs.Returns.{FindsOrRefuses, ReturnsRefusal};
ghost use Rattle.term_core.specs.WellBody.{IsWellBody};
ghost use Rattle.expr_read.specs.Front.{fault_at};
ghost use Rattle.body_lang.specs.Environment.{environment_of};
ghost use Rattle.body_lang.specs.TokenScan.{front_fault};
ghost use Rattle.body_lang.specs.Body.{IsBody, IsBodyFault};
ghost use Rattle.body_lang.specs.Broken.{broken_fault};

use crate::front::front_fault;
use crate::names::resolve;
use crate::scope::Scope;
use crate::text::tree;
use expr_read::fault_at;
use grammar_core::{ReadFault, ReadRefusal};
use jdf_lex::{JdfRefusal, Spot, Token};
use ptg_base::{Seq, Text};
use std::alloc::Global;
use term_core::Body;

// The first fault of a body whose text has this fault: that of a name before it, or else the text's.
fn broken(
    alloc: Global,
    tokens: &[Token],
    finish: Spot,
    scope: &Scope,
    fault: ReadFault,
) -> JdfRefusal
    requires { fault.left ≤ length tokens.now }
    ensures { ReturnsRefusal result
        (broken_fault (environment_of scope.now) tokens.now finish (length tokens.now - fault.left) fault.code) }
{
    let index = tokens.len() - fault.left;
    match front_fault(alloc, scope, tokens, index) {
        Ok(()) => JdfRefusal::Fault(fault_at(tokens, finish, index, fault.code)),
        Err(refusal) => refusal,
    }
}

/// Reads a body. Returns it with its trap words, in the order of their first use, or its first fault. The scope says
/// what names mean.
///
/// No name after a fault of the text (Syntax, BadNumber, ExprTooLong, TooDeep, TooManyVars) is judged. If the tokens
/// end too early, the fault is Syntax at `finish`, the spot after them.
pub fn read_body(
    alloc: Global,
    tokens: &[Token],
    finish: Spot,
    scope: &Scope,
) -> Result<(Body, Seq<Text>), JdfRefusal>
    // What is read is the body whose text the tokens are; a fault is the first one of the body.
    ensures exact { FindsOrRefuses (IsBody (environment_of scope.now) tokens.now)
        (IsBodyFault (environment_of scope.now) tokens.now finish) result }
    // The body is well made for the locals and the flows of the scope.
    ensures well { IfOk result (λ (body, words). IsWellBody (length scope.now.locals) (length scope.now.flows) body) }
{
    match tree(alloc, tokens) {
        Ok(tree) => resolve(alloc, scope, &tree),
        Err(ReadRefusal::OutOfMemory) => Err(JdfRefusal::OutOfMemory),
        Err(ReadRefusal::Fault(fault)) => Err(broken(alloc, tokens, finish, scope, fault)),
    }
}
