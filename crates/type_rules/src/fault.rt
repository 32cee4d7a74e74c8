//! Orders faults as in the text.

ghost use Rattle.std.specs.Prelude.{◌≡◌, Some};
ghost use Rattle.type_rules.specs.Faults.{is_before, earlier, fault_if};
ghost use Rattle.type_rules.specs.Returns.{ReturnsChecked};

use jdf_lex::{JdfCode, JdfFault, JdfRefusal, Spot, fault_at};

/// Whether a fault comes before another, by its spot and, at the same spot, by its code.
fn is_before(f: &JdfFault, g: &JdfFault) -> bool
    ensures { result ≡ is_before f.now g.now }
{
    f.spot.line < g.spot.line
        || (f.spot.line == g.spot.line
            && (f.spot.column < g.spot.column
                || (f.spot.column == g.spot.column && (f.code as u8) < g.code as u8)))
}

/// The earlier of two faults.
pub fn earlier(f: JdfFault, g: JdfFault) -> JdfFault
    ensures { result ≡ earlier f g }
{
    if is_before(&g, &f) { g } else { f }
}

/// Refuses with this fault if the condition holds.
pub fn fault_if(condition: bool, spot: Spot, code: JdfCode) -> Result<(), JdfRefusal>
    ensures { ReturnsChecked result (Some tt) (fault_if condition spot code) }
{
    if condition {
        Err(fault_at(spot, code))
    } else {
        Ok(())
    }
}
