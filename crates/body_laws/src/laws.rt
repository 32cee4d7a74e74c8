//! Laws of bodies, of the names in them, of their traps and of their budgets.

ghost use Rattle.std.specs.Prelude.{ℕ, ℤ, List, Option};
ghost use Rattle.term_core.specs.declared.body.Body.{Body};
ghost use Rattle.body_laws.specs.Laws.{NameNeverTooMany, SlotForEach, TokensAgreeWithTree, FrontsAgreeWithTree, OnlyTheNextCounts, OwnWords, WordsOnce};
ghost use Rattle.body_laws.specs.MoreUnits.{DoesTheSame};
ghost use Rattle.body_laws.specs.Renaming.{DeclaredSame, LoopedSame};

/// A law: if a variable gets another name, which occurs nowhere else, the body that is read stays the same.
pub fn another_name_changes_nothing()
    ensures declared { DeclaredSame }
    ensures looped { LoopedSame }
{}

/// A law: if the text of a body has no fault, no name is refused for declaring too many variables.
pub fn variables_are_counted_in_the_text()
    ensures { NameNeverTooMany }
{}

/// A law: a body has a slot for each local of the class and for each variable that it declares.
pub fn a_slot_for_each_variable()
    ensures { SlotForEach }
{}

/// A law of `front_fault`, which judges the names of a body whose text has a fault. In a text without a fault it agrees
/// with the tree, also at each front of the text; and of the tokens after a front only the next one matters.
pub fn names_agree()
    ensures whole { TokensAgreeWithTree }
    ensures front { FrontsAgreeWithTree }
    ensures next { OnlyTheNextCounts }
{}

/// A law: with a larger budget a body does what it does with a smaller one, unless the smaller one ran out.
pub fn more_units_change_nothing()
    ensures { (units more : ℕ) (body : Body) (locals : List ℤ) (tiles : List (Option (List ℤ)))
        → DoesTheSame units more body locals tiles }
{}

/// A law: each trap of a body has the number of its own word. The words are those of the text, each once, in the order
/// of their first use.
pub fn traps_have_their_words()
    ensures own { OwnWords }
    ensures once { WordsOnce }
{}
