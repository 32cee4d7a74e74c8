//! Laws of the trees of texts: their canonical spelling, their class names and their numbers.

ghost use Rattle.std.specs.Prelude.{ℕ, List};
ghost use Rattle.jdf_tree.specs.Jdf.{IsJdf};
ghost use Rattle.jdf_tree.specs.declared.tree.Jdf.{Jdf as JdfTree};
ghost use Rattle.print_laws.specs.ReadsBack.{ReadsBack};
ghost use Rattle.print_laws.specs.Spelled.{IsSpelled};

/// A law: if some text has this tree, and the tree's canonical spelling has at most 16 MiB and 1,000,000 tokens, then
/// the spelling is again the text of a tree. That tree is the same but for spots and the indices of tokens.
pub fn reads_back()
    ensures { ReadsBack }
{}

/// A law: in the tree of a text, each class's name is spelled as a name, and each number in a definition has 64 bits.
pub fn trees_are_spelled()
    ensures { (text : List ℕ) (jdf : JdfTree) → IsJdf text jdf → IsSpelled jdf }
{}
