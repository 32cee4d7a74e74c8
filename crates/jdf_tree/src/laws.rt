//! Laws of trees.

ghost use Rattle.jdf_tree.specs.TreeLimits.{TextsWithinLimits};

/// A law: the tree of a text has at most 64 classes. A class has at most 8 parameters, 16 definitions and 8 flows, and
/// a flow at most 16 dependences. A dependence with a second target has a guard.
pub fn trees_are_within_limits()
    ensures { TextsWithinLimits }
{}
