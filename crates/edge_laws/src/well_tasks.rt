//! Laws of well tasks and of active targets.

ghost use Rattle.std.specs.Prelude.{◌≡◌, ◌↔◌, ℤ, List, Some};
ghost use Rattle.ptg_base.specs.Lists.{IsIn};
ghost use Rattle.ptg_base.specs.Task.{Task};
ghost use Rattle.plan_core.specs.declared.flow.DepPlan.{DepPlan};
ghost use Rattle.plan_core.specs.declared.flow.FlowPlan.{FlowPlan};
ghost use Rattle.plan_core.specs.declared.plan.Plan.{Plan};
ghost use Rattle.plan_core.specs.declared.target.Target.{Target};
ghost use Rattle.dep_iter.specs.Active.{flow_ins, flow_outs, held_target};
ghost use Rattle.dep_iter.specs.Well.{IsWellTask};
ghost use Rattle.edge_laws.specs.Values.{IsReached, TaskHasValues};

/// A law: a task is well if and only if each expression that it needs has a value. It needs each index of its affinity,
/// its priority, the guard of each dependence that is reached, and each argument of each active target.
pub fn a_well_task_has_its_values()
    ensures { (P : Plan) (t : Task) → IsWellTask P t ↔ TaskHasValues P t }
{}

/// A law: the active targets among a flow's in dependences are those of the dependences that are reached and hold. The
/// active targets among its out dependences are those of all that hold.
pub fn the_active_targets_are_those_that_are_reached()
    ensures ins { (env : List ℤ) (f : FlowPlan) (x : Target)
        → IsIn x (flow_ins env f) ↔ ((d : DepPlan) × IsReached env f d × (held_target d env ≡ Some x)) }
    ensures outs { (env : List ℤ) (f : FlowPlan) (x : Target)
        → IsIn x (flow_outs env f) ↔ ((d : DepPlan) × IsIn d f.outs × (held_target d env ≡ Some x)) }
{}
