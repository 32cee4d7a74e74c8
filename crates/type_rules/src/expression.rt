//! Resolves the expressions of a class outside its body.

ghost use Rattle.type_rules.specs.Contexts.{IsContext, job_of};
ghost use Rattle.type_rules.specs.Returns.{ReturnsChecked};
ghost use Rattle.type_rules.specs.Expressions.{symbols_of, expression_faults, term_of, option_faults, option_term};

use crate::context::{Context, meaning_of};
use crate::fault::earlier;
use expr_names::{Meaning, Symbols};
use jdf_lex::{JdfCode, JdfFault, JdfRefusal, fault_at};
use jdf_tree::{ExprTree, Word};
use ptg_base::Text;
use term_core::Expr;

impl Symbols for Context<'_> {
    ghost is_sound = { IsContext };

    ghost table = { λ c. symbols_of (job_of c) c.seen.now };

    fn meaning(&self, name: &Text) -> Meaning {
        meaning_of(self, name)
    }

    // No text gets here: only bodies have elements.
    fn flow(&self, word: &Word) -> Result<u8, JdfRefusal> {
        Err(fault_at(word.spot, JdfCode::UnknownName))
    }

    fn reported(&self, first: JdfFault, second: JdfFault) -> JdfFault {
        earlier(first, second)
    }
}

/// Resolves the names of an expression. The definitions in scope are those of the context.
#[tactic(auto, using(crate::proofs::OneResolver::term_checked))]
pub fn term_of(context: &Context, tree: &ExprTree) -> Result<Expr, JdfRefusal>
    requires { IsContext context.now }
    ensures { ReturnsChecked result (term_of (job_of context.now) context.now.seen.now tree.now)
        (expression_faults (job_of context.now) context.now.seen.now tree.now) }
{
    expr_names::term_of(context.alloc, context, tree)
}

/// Resolves the names of an expression that may be left out.
pub fn option_term(context: &Context, tree: &Option<ExprTree>) -> Result<Option<Expr>, JdfRefusal>
    requires { IsContext context.now }
    ensures { ReturnsChecked result (option_term (job_of context.now) context.now.seen.now tree.now)
        (option_faults (job_of context.now) context.now.seen.now tree.now) }
{
    match tree {
        None => Ok(None),
        Some(tree) => Ok(Some(term_of(context, tree)?)),
    }
}
