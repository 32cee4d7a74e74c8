//! Joins the results of two checks.

ghost use Rattle.std.specs.Prelude.{◌≡◌, [], ◌∷◌, ◌++◌, List, Option, Some};
ghost use Rattle.jdf_lex.specs.declared.fault.JdfFault.{JdfFault};
ghost use Rattle.expr_names.specs.Refusals.{reported_refusal};
ghost use Rattle.type_rules.specs.Returns.{ReturnsChecked, both};
ghost use Rattle.type_rules.specs.Faults.{earlier, fault};

use crate::fault::earlier;
use jdf_lex::{JdfCode, JdfRefusal, Spot, fault_at};
use ptg_base::Seq;

// The earlier of two faults; out of memory, if either refusal is that.
fn earlier_refusal(first: JdfRefusal, second: JdfRefusal) -> JdfRefusal
    ensures { result ≡ reported_refusal earlier first second }
{
    match first {
        JdfRefusal::OutOfMemory => JdfRefusal::OutOfMemory,
        JdfRefusal::Fault(f) => match second {
            JdfRefusal::OutOfMemory => JdfRefusal::OutOfMemory,
            JdfRefusal::Fault(g) => JdfRefusal::Fault(earlier(f, g)),
        },
    }
}

/// Joins two parts of a text: both of them, or the first fault of either.
#[tactic(auto, using(crate::proofs::Joins::both_ok, crate::proofs::Joins::second_err, crate::proofs::Joins::first_err, crate::proofs::Joins::both_err))]
pub fn join<A: Drop, B: Drop>(
    first: Result<A, JdfRefusal>,
    second: Result<B, JdfRefusal>,
) -> Result<(A, B), JdfRefusal>
    ensures { (p : Option A) (q : Option B) (fs gs : List JdfFault) → ReturnsChecked first p fs
        → ReturnsChecked second q gs → ReturnsChecked result (both (λ x y. (x, y)) p q) (fs ++ gs) }
{
    match first {
        Ok(a) => match second {
            Ok(b) => Ok((a, b)),
            Err(refusal) => Err(refusal),
        },
        Err(refusal) => {
            let Err(other) = second else {
                return Err(refusal);
            };
            Err(earlier_refusal(refusal, other))
        }
    }
}

/// Refuses a part of a text that has one more fault, with the first of its faults.
#[tactic(auto, using(crate::proofs::Joins::ok_refused, crate::proofs::Joins::err_refused))]
pub fn refused<A: Drop, B: Drop>(
    part: Result<A, JdfRefusal>,
    spot: Spot,
    code: JdfCode,
) -> Result<B, JdfRefusal>
    ensures { (p : Option A) (q : Option B) (fs : List JdfFault) → ReturnsChecked part p fs
        → ReturnsChecked result q (fs ++ fault spot code ∷ []) }
{
    let fault = fault_at(spot, code);
    match part {
        Ok(_) => Err(fault),
        Err(refusal) => Err(earlier_refusal(refusal, fault)),
    }
}

/// Adds a part to a list of parts, or refuses with the first fault of the list and the part.
pub fn with_part<A: Drop>(
    parts: Result<Seq<A>, JdfRefusal>,
    part: Result<A, JdfRefusal>,
) -> Result<Seq<A>, JdfRefusal>
    ensures { (p : Option (List A)) (q : Option A) (fs gs : List JdfFault) → ReturnsChecked parts p fs
        → ReturnsChecked part q gs → ReturnsChecked result (both (λ xs x. xs ++ x ∷ []) p q) (fs ++ gs) }
{
    match join(parts, part) {
        Err(refusal) => Err(refusal),
        Ok((mut parts, part)) => {
            parts.push(part)?;
            Ok(parts)
        }
    }
}

/// Returns a part of a text if rules beside it hold, or refuses with the first fault of the part and the rules.
pub fn and_rules<A: Drop>(
    part: Result<A, JdfRefusal>,
    rules: Result<(), JdfRefusal>,
) -> Result<A, JdfRefusal>
    ensures { (p : Option A) (fs gs : List JdfFault) → ReturnsChecked part p fs → ReturnsChecked rules (Some tt) gs
        → ReturnsChecked result p (fs ++ gs) }
{
    match join(part, rules) {
        Err(refusal) => Err(refusal),
        Ok((part, ())) => Ok(part),
    }
}
