//! Resolves the flows that are named by the elements in a body.

ghost use Rattle.body_lang.specs.Environment.{environment_of};
ghost use Rattle.ptg_base.specs.Returns.{Returns};
ghost use Rattle.body_lang.specs.Expressions.{read_flow, written_flow};

use crate::lookup::flow_named;
use crate::scope::Scope;
use jdf_lex::{JdfCode, JdfRefusal, fault_at};
use jdf_tree::Word;
use term_core::FlowKind;

/// The number of a flow whose elements are read: any with a tile.
pub(crate) fn read_flow(scope: &Scope, word: &Word) -> Result<u8, JdfRefusal>
    ensures { Returns (λ n. n) result (read_flow (environment_of scope.now) word.now) }
{
    let Some(number) = flow_named(scope, word.text.bytes()) else {
        return Err(fault_at(word.spot, JdfCode::UnknownName));
    };
    match scope.flows.get(number).kind {
        FlowKind::Ctl => Err(fault_at(word.spot, JdfCode::CtlMixed)),
        FlowKind::Read | FlowKind::Write | FlowKind::Rw => Ok(number as u8),
    }
}

/// The number of a flow whose elements are assigned to: one with a tile that is not only read.
pub(crate) fn written_flow(scope: &Scope, word: &Word) -> Result<u8, JdfRefusal>
    ensures { Returns (λ n. n) result (written_flow (environment_of scope.now) word.now) }
{
    let Some(number) = flow_named(scope, word.text.bytes()) else {
        return Err(fault_at(word.spot, JdfCode::UnknownName));
    };
    match scope.flows.get(number).kind {
        FlowKind::Ctl => Err(fault_at(word.spot, JdfCode::CtlMixed)),
        FlowKind::Read => Err(fault_at(word.spot, JdfCode::ReadAssigned)),
        FlowKind::Write | FlowKind::Rw => Ok(number as u8),
    }
}
