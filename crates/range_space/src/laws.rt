//! Laws of ranges, tasks, their locals and faults.

ghost use Rattle.std.specs.Prelude.{◌≡◌, ℤ, List};
ghost use Rattle.ptg_base.specs.Lists.{IsIn, HasNoRepeats};
ghost use Rattle.term_core.specs.declared.space.ClassSpace.{ClassSpace};
ghost use Rattle.term_core.specs.WellSpace.{IsWellSpace};
ghost use Rattle.range_space.specs.declared.fault.SpaceFault.{SpaceFault};
ghost use Rattle.range_space.specs.Tasks.{tasks};
ghost use Rattle.range_space.specs.Locals.{IsLocalsOf};
ghost use Rattle.range_space.specs.Walk.{walk_all, IsFirstFault};

/// A law: no task occurs twice in the space of its class.
pub fn tasks_are_distinct()
    ensures { (s : ClassSpace) → IsWellSpace s → HasNoRepeats (tasks s) }
{}

/// A law: parameters are those of a task if and only if they have locals, and they have at most one list of locals.
pub fn a_task_has_one_list_of_locals()
    ensures some { (s : ClassSpace) (params : List ℤ) → IsIn params (tasks s)
        → (locals : List ℤ) × IsLocalsOf s params locals }
    ensures task { (s : ClassSpace) (params locals : List ℤ) → IsLocalsOf s params locals → IsIn params (tasks s) }
    ensures one { (s : ClassSpace) (params locals others : List ℤ) → IsWellSpace s → IsLocalsOf s params locals
        → IsLocalsOf s params others → locals ≡ others }
{}

/// A law: the walk through the classes has at most one first fault.
pub fn one_first_fault()
    ensures { (ss : List ClassSpace) (fault other : SpaceFault) → IsFirstFault 0 0 (walk_all 0 ss) fault
        → IsFirstFault 0 0 (walk_all 0 ss) other → fault ≡ other }
{}
