//! Laws of the type check.

ghost use Rattle.type_check.specs.Laws.{OneFirstFault, ResolvedIsWellMade, ResolvedIsAPlan, OnePlan, PlanHasNoFault};

/// A law: if a JDF within the limits of its text resolves with well made data, the result is a plan. Names are
/// distinct, targets exist with their arguments and datatypes, and flows, bodies and collections fit one another.
pub fn what_is_resolved_is_a_plan()
    ensures well_made { ResolvedIsWellMade }
    ensures plan { ResolvedIsAPlan }
{}

/// A law: a JDF and its data have at most one plan and at most one first fault, and never both.
pub fn one_answer()
    ensures plan { OnePlan }
    ensures fault { OneFirstFault }
    ensures either { PlanHasNoFault }
{}
