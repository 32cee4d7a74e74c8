//! Refuses names that are given twice.

ghost use Rattle.std.specs.Prelude.{◌≡◌, Some};
ghost use Rattle.jdf_tree.specs.declared.expression.Word.{Word};
ghost use Rattle.type_rules.specs.Repeats.{repeats};
ghost use Rattle.type_rules.specs.Returns.{ReturnsChecked};

use crate::fault::fault_if;
use crate::part::and_rules;
use jdf_lex::{JdfCode, JdfRefusal};
use jdf_tree::{ClassTree, DefTree, FlowTree, Word};
use name_table::NameSet;
use ptg_base::Text;
use std::alloc::Global;

/// A part of the text that a word names.
pub trait HasName {
    /// The word that names it.
    ghost word: { Self → Word };

    /// The word that names it.
    fn word(&self) -> &Word
        ensures { result.now ≡ word self.now };
}

impl HasName for Word {
    ghost word = { λ w. w };

    fn word(&self) -> &Word {
        self
    }
}

impl HasName for DefTree {
    ghost word = { λ d. d.name };

    fn word(&self) -> &Word {
        &self.name
    }
}

impl HasName for FlowTree {
    ghost word = { λ f. f.name };

    fn word(&self) -> &Word {
        &self.name
    }
}

impl HasName for ClassTree {
    ghost word = { λ c. c.name };

    fn word(&self) -> &Word {
        &self.name
    }
}

/// Refuses a name that an earlier item has, with this code. Names are looked up in a set.
pub fn repeats<T: HasName>(alloc: Global, code: JdfCode, items: &[T]) -> Result<(), JdfRefusal>
    ensures { ReturnsChecked result (Some tt) (repeats T.word code items.now) }
{
    let mut names = NameSet::new(alloc);
    let mut rules = Ok(());
    for item in items {
        let word = item.word();
        let is_new = names.add(Text::of(alloc, word.text.bytes())?)?;
        rules = and_rules(rules, fault_if(!is_new, word.spot, code));
    }
    rules
}
