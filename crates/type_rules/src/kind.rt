//! Compares the kinds of a flow and of its target.

ghost use Rattle.std.specs.Prelude.{◌≡◌};
ghost use Rattle.type_rules.specs.Kinds.{are_mixed};

use term_core::FlowKind;

/// Whether one of the two kinds carries order alone and the other one a tile.
pub(crate) fn are_mixed(one: FlowKind, other: FlowKind) -> bool
    ensures { result ≡ are_mixed one other }
{
    if one.is_control() {
        !other.is_control()
    } else {
        other.is_control()
    }
}
