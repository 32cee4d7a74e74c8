//! Laws of what is resolved.

ghost use Rattle.std.specs.Prelude.{◌≡◌, ◌≤◌, List, [], Some, length};
ghost use Rattle.ptg_base.specs.Limits.{most_locals};
ghost use Rattle.term_core.specs.WellSpace.{IsWellSpace};
ghost use Rattle.term_core.specs.declared.space.ClassSpace.{ClassSpace};
ghost use Rattle.jdf_tree.specs.declared.expression.Word.{Word};
ghost use Rattle.jdf_tree.specs.declared.tree.DefTree.{DefTree};
ghost use Rattle.type_rules.specs.Names.{Job};
ghost use Rattle.type_rules.specs.NameLaws.{NamesAreDistinct};
ghost use Rattle.type_rules.specs.Definitions.{space_faults, space_of};

/// A law: if at most 16 definitions and the parameters of a class break no rule, their resolved space is well made.
pub fn a_resolved_space_is_well_made()
    ensures { (job : Job) (params : List Word) (defs : List DefTree) (s : ClassSpace) → length defs ≤ most_locals
        → space_faults job params defs ≡ [] → space_of job params defs ≡ Some s → IsWellSpace s }
{}

/// A law: if no word of a list is given twice, the words are distinct names.
pub fn names_given_once_are_distinct()
    ensures { NamesAreDistinct }
{}
