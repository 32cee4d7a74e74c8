//! What the names in expressions mean.

ghost use Rattle.std.specs.Prelude.{◌≡◌};
ghost use Rattle.ptg_base.specs.Returns.{Returns};
ghost use Rattle.expr_names.specs.Symbols.{SymbolTable};

use crate::meaning::Meaning;
use jdf_lex::{JdfFault, JdfRefusal};
use jdf_tree::Word;
use ptg_base::Text;

/// What the names in an expression mean. A name before an index names a flow; every other name has a `meaning`.
pub trait Symbols {
    ghost use Rattle.expr_names.specs.Symbols.{SymbolTable};

    /// What must hold for the names to be looked up.
    ghost is_sound: { Self → Type 0 };

    /// The meanings, as a table.
    ghost table: { Self → SymbolTable };

    /// What a name means if it is not before an index.
    fn meaning(&self, name: &Text) -> Meaning
        requires { is_sound self.now }
        ensures { result ≡ (table self.now).meaning name.now };

    /// The number of the flow that a name before an index names, or the fault of the name.
    fn flow(&self, word: &Word) -> Result<u8, JdfRefusal>
        requires { is_sound self.now }
        ensures { Returns (λ n. n) result ((table self.now).flow word.now) };

    /// Which fault is reported if two parts of an expression have one each.
    fn reported(&self, first: JdfFault, second: JdfFault) -> JdfFault
        requires { is_sound self.now }
        ensures { result ≡ (table self.now).reported first second };
}
