//! The text of a JDF.

ghost use Rattle.std.specs.Prelude.{◌≡◌, Err, IfOk};
ghost use Rattle.ptg_base.specs.declared.refusal.Refusal.TheVariants.{Fault};
ghost use Rattle.jdf_lex.specs.declared.fault.JdfFault.{JdfFault};
ghost use Rattle.jdf_tree.specs.Jdf.{IsJdf};
ghost use Rattle.jdf_tree.specs.Fault.{IsJdfFault, too_long};
ghost use Rattle.jdf_tree.specs.TreeLimits.{IsWithinLimits};

use jdf_lex::{JdfCode, JdfFault, JdfRefusal, Spot};
use jdf_read::read;
use jdf_tree::{Jdf, trees_are_within_limits};
use std::alloc::Global;

/// The fault of a JDF text of more than 16 MiB, which is not read to its end.
pub fn jdf_too_long() -> JdfFault
    ensures { result ≡ too_long }
{
    JdfFault {
        spot: Spot { line: 1, column: 1 },
        code: JdfCode::TooLong,
    }
}

/// The tree of a JDF text, which is within the limits of trees, or its first fault.
pub fn tree_of(alloc: Global, text: &[u8]) -> Result<Jdf, JdfRefusal>
    ensures found { IfOk result (IsJdf text.now) }
    ensures within { IfOk result IsWithinLimits }
    ensures fault { (f : JdfFault) → result ≡ Err (Fault f) → IsJdfFault text.now f }
{
    trees_are_within_limits();
    read(alloc, text)
}
