//! Laws of whole texts.

ghost use Rattle.jdf_read.specs.Laws.{OneTree, OneFault};

/// A law: a text has at most one tree.
pub fn one_tree()
    ensures { OneTree }
{}

/// A law: a text has at most one first fault.
pub fn one_fault()
    ensures { OneFault }
{}
