//! Laws of the first fault.

ghost use Rattle.std.specs.Prelude.{◌≡◌, ◌⊎◌, ◌<◌, ℕ, ℤ, List, Some, length, slice_get};
ghost use Rattle.term_core.specs.declared.space.ClassSpace.{ClassSpace};
ghost use Rattle.range_space.specs.Walk as walk;
ghost use Rattle.range_space.specs.declared.fault.SpaceFault.TheVariants.{BadExpr};
ghost use Rattle.plan_core.specs.declared.class.ClassPlan.{ClassPlan};
ghost use Rattle.plan_core.specs.declared.plan.Plan.{Plan};
ghost use Rattle.dep_iter.specs.Tasks.{IsTask, task};
ghost use Rattle.dep_iter.specs.Consistent.{IsConsistent};
ghost use Rattle.edge_match.specs.FirstFault.{IsFirstFault, IsTaskFault};
ghost use Rattle.edge_match.specs.declared.fault.MatchFault.{MatchFault};

/// A law: each plan is consistent or has a first fault.
#[tactic(auto, using(crate::proofs::Either::consistent_or_fault))]
pub fn a_plan_is_consistent_or_has_a_first_fault()
    ensures { (P : Plan) → IsConsistent P ⊎ ((f : MatchFault) × IsFirstFault P f) }
{}

/// A law: a plan has at most one first fault.
pub fn a_plan_has_one_first_fault()
    ensures { (P : Plan) (f g : MatchFault) → IsFirstFault P f → IsFirstFault P g → f ≡ g }
{}

/// A law: the class of a first fault exists, and so does its flow, if it names one. If the spaces have no fault, its
/// numbers name a task of the job. If a definition has no value, they are fewer than the definitions of the class.
pub fn a_first_fault_names_what_exists()
    ensures class { (P : Plan) (f : MatchFault) → IsFirstFault P f → f.class < length P.classes }
    ensures flow { (P : Plan) (f : MatchFault) (c : ClassPlan) (n : ℕ) → IsFirstFault P f
        → slice_get P.classes f.class ≡ Some c → f.flow ≡ Some n → n < length c.flows }
    ensures task { (P : Plan) (f : MatchFault) → IsTaskFault P f → IsTask P (task f.class f.numbers) }
    ensures outer { (P : Plan) (class : ℕ) (values : List ℤ) (s : ClassSpace)
        → walk.IsFirstFault 0 0 (walk.walk_all 0 P.spaces) (BadExpr class values) → slice_get P.spaces class ≡ Some s
        → length values < length s.defs }
{}
