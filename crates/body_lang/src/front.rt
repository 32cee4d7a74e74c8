//! Judges the names at the front of a body whose text has its fault further on.

ghost use Rattle.std.specs.Prelude.{◌≤◌, length};
ghost use Rattle.body_lang.specs.Environment.{environment_of};
ghost use Rattle.ptg_base.specs.Returns.{Returns};
ghost use Rattle.body_lang.specs.Bindings.{bindings_of};
ghost use Rattle.body_lang.specs.TokenScan.{judged_as, judged, judged_among, front_fault};
ghost use Rattle.body_lang.specs.Scanner.{scan_of};

use crate::bindings::{BindingTable, require_fresh};
use crate::expression::slot_of;
use crate::flow::{read_flow, written_flow};
use crate::lookup::meaning_of;
use crate::role::{Role, role_of};
use crate::scanner::{Scanner, pass};
use crate::scope::Scope;
use expr_names::value_of;
use expr_read::name;
use grammar_core::ReadRefusal;
use jdf_lex::{JdfRefusal, Token};
use jdf_tree::{Part, Word};
use std::alloc::Global;

// Refuses a name that has a fault in this role.
#[tactic(auto, using(ptg_base::proofs::Refusals::refuses_before))]
fn judge_as(
    role: Role,
    scope: &Scope,
    bindings: &BindingTable,
    word: &Word,
) -> Result<(), JdfRefusal>
    ensures { Returns (λ _. tt) result (judged_as role (environment_of scope.now) (bindings_of bindings.now) word.now) }
{
    let seen = bindings.seen.as_slice();
    match role {
        Role::Declared => require_fresh(word, bindings)?,
        Role::NotLookedUp => {}
        Role::Assigned => {
            let _slot = slot_of(scope, seen, word)?;
        }
        Role::ElementAssigned => {
            let _flow = written_flow(scope, word)?;
        }
        Role::Element => {
            let _flow = read_flow(scope, word)?;
        }
        Role::Value => {
            let _value = value_of(word, meaning_of(scope, seen, &word.text))?;
        }
    }
    Ok(())
}

// Judges the next token, if it is a name.
#[tactic(auto, using(crate::proofs::Fronts::name_read, crate::proofs::Fronts::no_name))]
fn judge(
    alloc: Global,
    scope: &Scope,
    scanner: &Scanner,
    tokens: &[Token],
) -> Result<(), JdfRefusal>
    ensures { Returns (λ _. tt) result (judged (environment_of scope.now) (scan_of scanner.now) tokens.now) }
{
    match name(alloc, Part::Body, tokens) {
        Err(ReadRefusal::OutOfMemory) => Err(JdfRefusal::OutOfMemory),
        Err(ReadRefusal::Fault(_)) => Ok(()),
        Ok((word, rest)) => judge_as(
            role_of(scanner.previous, rest),
            scope,
            &scanner.bindings,
            &word,
        ),
    }
}

/// Refuses with the first fault of a name among the first `count` tokens of a body; succeeds if there is none. It is
/// for bodies whose text has its first fault after these tokens.
pub fn front_fault(
    alloc: Global,
    scope: &Scope,
    tokens: &[Token],
    count: usize,
) -> Result<(), JdfRefusal>
    requires { count ≤ length tokens.now }
    ensures { Returns (λ _. tt) result (front_fault (environment_of scope.now) tokens.now count) }
{
    judge_all(alloc, scope, &mut Scanner::new(alloc), tokens, count)
}

// The same for the first `count` of these tokens, for a scanner that is at the first of them.
fn judge_all(
    alloc: Global,
    scope: &Scope,
    scanner: &mut Scanner,
    tokens: &[Token],
    count: usize,
) -> Result<(), JdfRefusal>
    requires { count ≤ length tokens.now }
    ensures { Returns (λ _. tt) result
        (judged_among (environment_of scope.now) (scan_of scanner.old) count tokens.now) }
{
    for index in 0..count {
        judge(alloc, scope, scanner, &tokens[index..])?;
        pass(alloc, scanner, &tokens[index])?;
    }
    Ok(())
}
