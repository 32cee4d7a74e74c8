//! Faults of tasks.

ghost use Rattle.std.specs.Prelude.{◌≡◌, ◌∷◌, [], IfOk, IsTrue};
ghost use Rattle.plan_core.specs.declared.plan.Plan.{Plan as PlanValue};
ghost use Rattle.edge_match.specs.Counted.{Checked, Decides};
ghost use Rattle.edge_match.specs.Faults.{fault_at};
ghost use Rattle.edge_match.specs.FirstFault.{code_of};
ghost use Rattle.edge_match.specs.Marks.{Check, mark};
ghost use Rattle.edge_match.specs.declared.counted.Counted.{Counted as CountedValue};

use crate::fault::{MatchCode, MatchFault};
use ptg_base::TaskId;
use range_space::Numbers;

// The fault with this code of a task, or of one of its flows.
pub(crate) fn fault_at(code: MatchCode, t: &TaskId, flow: Option<u8>) -> MatchFault
    ensures { result ≡ fault_at code t.now flow }
{
    let mut numbers = Numbers::new();
    let params = t.params();
    for v in params {
        numbers.push(*v);
    }
    MatchFault {
        code,
        class: t.class(),
        numbers,
        flow,
    }
}

// Returns an error with this code if a test of a task, or of one of its flows, does not hold.
pub(crate) fn require(
    holds: bool,
    code: MatchCode,
    t: &TaskId,
    flow: Option<u8>,
) -> Result<(), MatchFault>
    ensures holds { IfOk result (λ _. IsTrue holds) }
    ensures checked { (P : PlanValue) (c : Check) (s u : CountedValue) → Decides P s u holds c → code_of c ≡ code
        → Checked P s u result (mark t.now flow c ∷ []) }
{
    if holds {
        Ok(())
    } else {
        Err(fault_at(code, t, flow))
    }
}
