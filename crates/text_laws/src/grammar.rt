//! The theorem on predictive grammars, and the grammar of JDF as one of them.

ghost use Rattle.grammar_core.specs.ExactReading.{IsPredictive};
ghost use Rattle.grammar_core.specs.Predictive.{Claims};
ghost use Rattle.grammar_core.specs.Production.{Production};
ghost use Rattle.jdf_tree.specs.Nonterminal.{Nonterminal, TreeOf};
ghost use Rattle.jdf_tree.specs.Grammar.{productions, file, claims};
ghost use Rattle.jdf_tree.specs.declared.tree.Jdf.{Jdf};
ghost use Rattle.jdf_tree.proofs.CallerLemmas.{file_predictive};
ghost use Rattle.text_laws.specs.ExactReading.{ReadsExactly};

/// A grammar that one token of lookahead reads: its nonterminals with their trees and productions, its start
/// production, and what is claimed of each nonterminal. `predictive` proves that all this passes the test for
/// predictive grammars.
pub trait PredictiveGrammar {
    ghost Nonterminal: { Type 0 };

    ghost TreeOf: { Nonterminal → Type 0 };

    ghost Tree: { Type 0 };

    ghost productions: { (n : Nonterminal) → Production Nonterminal TreeOf (TreeOf n) };

    ghost start: { Production Nonterminal TreeOf Tree };

    ghost claims: { Claims Nonterminal };

    ghost predictive: { IsPredictive productions claims start };
}

/// A law: one token of lookahead reads a predictive grammar exactly. Whatever the tokens are, reading returns the one
/// tree that the grammar derives from all of them, or else their first fault. One of the two always exists, never both.
pub fn is_read_exactly<G: PredictiveGrammar>()
    ensures { ReadsExactly G.productions G.start }
{}

/// The grammar of a JDF text. It is predictive, so the law `is_read_exactly` holds for it.
pub struct JdfGrammar;

impl PredictiveGrammar for JdfGrammar {
    ghost Nonterminal = { Nonterminal };

    ghost TreeOf = { TreeOf };

    ghost Tree = { Jdf };

    ghost productions = { productions };

    ghost start = { file };

    ghost claims = { claims };

    ghost predictive = { file_predictive };
}
