//! Whether a global is missing from the data.

ghost use Rattle.std.specs.Prelude.{◌≡◌};
ghost use Rattle.std.specs.List.{list_any};
ghost use Rattle.coll_data.specs.Data.{Data};
ghost use Rattle.jdf_tree.specs.declared.expression.Word.{Word};
ghost use Rattle.type_rules.specs.Contexts.{AreGlobals};
ghost use Rattle.type_check.specs.Globals.{is_missing_here};
ghost use Rattle.type_check.specs.Given.{is_missing};

use jdf_tree::{Jdf, Word};
use type_rules::Globals;

// Whether a global is missing from the tables.
fn is_missing_here(globals: &Globals, global: &Word) -> bool
    ensures { result ≡ is_missing_here globals.now global.now.text }
{
    let is_int = globals.ints.get(&global.text).copied().is_some();
    let is_coll = globals.colls.get(&global.text).copied().is_some();
    !(is_int || is_coll)
}

// Whether any of these globals is missing from the tables.
fn any_is_missing(globals: &Globals, words: &[Word]) -> bool
    ensures { result ≡ list_any (λ (w : Word). is_missing_here globals.now w.text) words.now }
{
    words.iter().any(|global| is_missing_here(globals, global))
}

/// Whether some global of a JDF is neither an integer nor a collection of the data. It is looked up in the tables of
/// the globals, not in the data.
pub fn missing(jdf: &Jdf, globals: &Globals) -> bool
    ensures { (given : Data) → AreGlobals (record { jdf = jdf.now; given = given }) globals.now
        → result ≡ is_missing jdf.now given }
{
    any_is_missing(globals, jdf.globals.as_slice())
}
