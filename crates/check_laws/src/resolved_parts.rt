//! Laws of faults and of resolved parts: when there is no fault, and which names can occur.

ghost use Rattle.std.specs.Prelude.{◌≡◌, ℕ, IsTrue, List, Option, Some, [], length, suc};
ghost use Rattle.term_core.specs.Term.{Term};
ghost use Rattle.term_core.specs.declared.space.ClassSpace.{ClassSpace};
ghost use Rattle.jdf_tree.specs.Expression.{Expression};
ghost use Rattle.coll_data.specs.Data.{Data};
ghost use Rattle.plan_core.specs.Flows.{is_flow};
ghost use Rattle.plan_core.specs.Targets.{is_element};
ghost use Rattle.plan_core.specs.declared.class.ClassPlan.{ClassPlan};
ghost use Rattle.plan_core.specs.declared.flow.FlowPlan.{FlowPlan};
ghost use Rattle.plan_core.specs.declared.shape.Shape.{Shape};
ghost use Rattle.plan_core.specs.declared.target.Arg.{Arg};
ghost use Rattle.type_rules.specs.TreesAndFaults.{ArgTree, DefTree, FlowTree, Word};
ghost use Rattle.type_rules.specs.Arguments.{arguments_faults, arguments_of, indices_faults, indices_of};
ghost use Rattle.type_rules.specs.Expressions.{option_faults, option_term};
ghost use Rattle.type_rules.specs.Names.{Job};
ghost use Rattle.type_rules.specs.Datatypes.{type_number};
ghost use Rattle.type_rules.specs.Dependences.{flow_faults, flow_plan};
ghost use Rattle.type_rules.specs.PartsOfJob.{HaveParts};
ghost use Rattle.type_rules.specs.Elements.{element_faults, element_of};
ghost use Rattle.check_laws.specs.Closed.{ArgumentsAreClosed, ArgumentsAreNoRanges, IndicesAreClosed, OptionIsClosed};
ghost use Rattle.check_laws.specs.Datatypes.{HasOneDatatype};

/// A law: resolved arguments, indices and expressions have no fault.
pub fn what_is_resolved_has_no_fault()
    ensures arguments { (job : Job) (seen : List DefTree) (args : List ArgTree) (xs : List Arg)
        → arguments_of job seen args ≡ Some xs → arguments_faults job seen args ≡ [] }
    ensures indices { (job : Job) (seen : List DefTree) (args : List ArgTree) (ts : List Term)
        → indices_of job seen args ≡ Some ts → indices_faults job seen args ≡ [] }
    ensures option { (job : Job) (seen : List DefTree) (e : Option Expression) (o : Option Term)
        → option_term job seen e ≡ Some o → option_faults job seen e ≡ [] }
{}

/// A law: two names of types with the same number are the same, so different names have different numbers.
pub fn types_of_one_number_have_one_name()
    ensures { (d : Data) (a b : List ℕ) (n : ℕ) → type_number d a ≡ Some n → type_number d b ≡ Some n → a ≡ b }
{}

/// A law, for a plan with the parts of a job. An element has no fault if it is resolved to an element of the plan. A
/// flow has none if it is resolved to a flow that the plan may have and its dependences have one datatype. The
/// dependences of a flow without a fault have one datatype.
pub fn a_flow_that_fits_has_no_fault()
    ensures element { (job : Job) (classes : List ClassPlan) (spaces : List ClassSpace) (colls : List Shape)
        → HaveParts job classes spaces colls
        → (seen : List DefTree) (w : Word) (args : List ArgTree) (x : ℕ × List Term)
        → element_of job seen w args ≡ Some x → IsTrue (is_element colls (length seen) x.0 x.1)
        → element_faults job seen w args ≡ [] }
    ensures flow { (job : Job) (classes : List ClassPlan) (spaces : List ClassSpace) (colls : List Shape)
        → HaveParts job classes spaces colls → (seen : List DefTree) (flow : FlowTree) (p : FlowPlan)
        → HasOneDatatype flow → flow_plan job seen flow ≡ Some p
        → IsTrue (is_flow classes spaces colls (suc (length job.given.types)) (length seen) p)
        → flow_faults job seen flow ≡ [] }
    ensures one_datatype { (job : Job) (seen : List DefTree) (flow : FlowTree) → flow_faults job seen flow ≡ []
        → HasOneDatatype flow }
{}

/// A law: resolved arguments, indices and expressions name only definitions that are seen. If no argument is a range,
/// none is resolved to one.
pub fn what_is_resolved_is_closed()
    ensures arguments { ArgumentsAreClosed }
    ensures indices { IndicesAreClosed }
    ensures option { OptionIsClosed }
    ensures ranges { ArgumentsAreNoRanges }
{}
