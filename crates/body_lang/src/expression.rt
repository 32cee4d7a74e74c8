//! Resolves the names of a body's expressions.

ghost use Rattle.std.specs.Prelude.{⊤};
ghost use Rattle.body_lang.specs.Environment.{environment_of};
ghost use Rattle.ptg_base.specs.Returns.{Returns};
ghost use Rattle.body_lang.specs.Meanings.{meaning_of};
ghost use Rattle.body_lang.specs.Expressions.{slot_of, symbols_of, term_of};

use crate::flow::read_flow;
use crate::lookup::meaning_of;
use crate::scope::{Context, Scope};
use crate::variable::Variable;
use expr_names::{Meaning, Symbols};
use jdf_lex::{JdfCode, JdfFault, JdfRefusal, fault_at};
use jdf_tree::{ExprTree, Word};
use ptg_base::Text;
use term_core::Expr;

/// Returns the slot of a name that a statement assigns to, or the name's fault if it is no variable that may be
/// assigned.
pub(crate) fn slot_of(scope: &Scope, seen: &[Variable], word: &Word) -> Result<u16, JdfRefusal>
    ensures { Returns (λ n. n) result
        (slot_of word.now (meaning_of (environment_of scope.now) seen.now word.now.text)) }
{
    match meaning_of(scope, seen, &word.text) {
        Meaning::Variable(slot) => Ok(slot),
        Meaning::LoopVariable(_) | Meaning::Local(_) | Meaning::Integer(_) => Err(fault_at(
            word.spot,
            JdfCode::NotAssignable,
        )),
        Meaning::Collection => Err(fault_at(word.spot, JdfCode::WrongKind)),
        Meaning::Nothing => Err(fault_at(word.spot, JdfCode::UnknownName)),
    }
}

// The names of an expression at a point where these variables are seen.
#[derive(Drop)]
struct Seen<'a> {
    scope: &'a Scope<'a>,
    variables: &'a [Variable],
}

impl Symbols for Seen<'_> {
    ghost is_sound = { λ _. ⊤ };

    ghost table = { λ s. symbols_of (environment_of s.scope.now) s.variables.now };

    fn meaning(&self, name: &Text) -> Meaning {
        meaning_of(self.scope, self.variables, name)
    }

    fn flow(&self, word: &Word) -> Result<u8, JdfRefusal> {
        read_flow(self.scope, word)
    }

    fn reported(&self, first: JdfFault, _second: JdfFault) -> JdfFault {
        first
    }
}

/// Resolves the names of an expression at a point where these variables are seen.
pub(crate) fn term_of(
    context: &Context,
    seen: &[Variable],
    tree: &ExprTree,
) -> Result<Expr, JdfRefusal>
    ensures { Returns (λ e. e) result (term_of (environment_of context.now.scope.now) seen.now tree.now) }
{
    let names = Seen {
        scope: context.scope,
        variables: seen,
    };
    expr_names::term_of(context.alloc, &names, tree)
}
