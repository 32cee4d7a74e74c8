//! Laws of resolved parts: the elements and the flows of a plan.

ghost use Rattle.type_rules.specs.FlowLaws.{ElementsExist, FlowsAreWellMade};

/// A law: a resolved element that breaks no rule is an element of a collection of the plan.
pub fn a_resolved_element_exists()
    ensures { ElementsExist }
{}

/// A law: a resolved flow that breaks no rule may be a flow of a plan with the parts of the job. Its targets exist,
/// have its datatype, and are allowed for its kind.
pub fn a_resolved_flow_is_well_made()
    ensures { FlowsAreWellMade }
{}
