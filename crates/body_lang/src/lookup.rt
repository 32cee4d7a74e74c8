//! Looks up what a name means.

ghost use Rattle.std.specs.Prelude.{◌≡◌, ◌<◌, length, MatchOption, IfSome, None, Some};
ghost use Rattle.name_table.specs.Names.{index_named};
ghost use Rattle.body_lang.specs.Environment.{environment_of};
ghost use Rattle.body_lang.specs.Meanings.{last_named, meaning_of, flow_named};

use crate::scope::Scope;
use crate::variable::Variable;
use expr_names::{Meaning, outer_meaning};
use ptg_base::Text;

// The variable of this name that was declared last. The recursion is as deep as there are variables, at most 256.
#[tactic(auto, using(crate::proofs::Last::last_is, crate::proofs::Last::last_is_before))]
fn last_named<'a>(seen: &'a [Variable], name: &[u8]) -> Option<&'a Variable>
    ensures { MatchOption result (last_named seen.now name.now ≡ None) (λ v.
        last_named seen.now name.now ≡ Some v.now) }
{
    let (last, front) = seen.split_last()?;
    if last.name.bytes() == name {
        Some(last)
    } else {
        last_named(front, name)
    }
}

// The number of the first definition of the class with this name.
fn local_named(scope: &Scope, name: &[u8]) -> Option<usize>
    ensures value { result ≡ index_named scope.now.locals name.now }
    ensures within { IfSome result (λ n. n < length scope.now.locals) }
{
    scope
        .locals
        .as_slice()
        .iter()
        .position(|local| local.bytes() == name)
}

/// What a name in an expression means at a point where these variables are seen.
pub(crate) fn meaning_of(scope: &Scope, seen: &[Variable], name: &Text) -> Meaning
    ensures { result ≡ meaning_of (environment_of scope.now) seen.now name.now }
{
    if let Some(variable) = last_named(seen, name.bytes()) {
        return if variable.is_loop_variable {
            Meaning::LoopVariable(variable.slot)
        } else {
            Meaning::Variable(variable.slot)
        };
    }
    let local = match local_named(scope, name.bytes()) {
        Some(number) => Some(number as u16),
        None => None,
    };
    outer_meaning(local, scope.ints, scope.colls, name)
}

/// The number of the first flow of this name.
pub(crate) fn flow_named(scope: &Scope, name: &[u8]) -> Option<usize>
    ensures value { result ≡ flow_named (environment_of scope.now) name.now }
    ensures within { IfSome result (λ n. n < length scope.now.flows) }
{
    scope
        .flows
        .as_slice()
        .iter()
        .position(|flow| flow.name.bytes() == name)
}
