//! Laws of orders and of their texts: which task may come next, and that there is a whole order.

ghost use Rattle.std.specs.Prelude.{◌↔◌, IsTrue, List, ◌≡◌, ◌≤◌, length, map, ℕ};
ghost use Rattle.ptg_base.specs.Lists.{IsIn};
ghost use Rattle.ptg_base.specs.Task.{Task};
ghost use Rattle.ptg_base.specs.declared.edge.Edge.{Edge};
ghost use Rattle.plan_core.specs.declared.plan.Plan.{Plan};
ghost use Rattle.coll_data.specs.Data.{Data};
ghost use Rattle.dep_iter.specs.Consistent.{IsConsistent};
ghost use Rattle.dep_iter.specs.Edges.{in_edges};
ghost use Rattle.dep_iter.specs.Tasks.{IsTask};
ghost use Rattle.flow_meaning.specs.Backward.{ended};
ghost use Rattle.flow_meaning.specs.Ending.{has_outputs};
ghost use Rattle.flow_meaning.specs.Machine.{MachineState, MayClaim};
ghost use Rattle.flow_meaning.specs.Sound.{IsFinished, IsSoundState};
ghost use Rattle.flow_meaning.specs.Order.{IsWholeOrder};
ghost use Rattle.std.specs.List.{AllByRecursion};
ghost use Rattle.ptg_base.specs.Limits.{most_tasks, most_bytes};
ghost use Rattle.trace_core.specs.Spelling.{IsSpelled};
ghost use Rattle.trace_core.specs.Text.{row_of, trace_text};
ghost use Rattle.trace_core.specs.declared.fault.TraceFault.{TraceFault};
ghost use Rattle.trace_core.specs.Faults.{IsTraceFault};
ghost use Rattle.trace_core.specs.Traces.{IsSomeTrace, IsTrace};
ghost use Rattle.trace_core.specs.Reading.{IsListOf};

/// A law: a job has a whole order, whatever its data are.
pub fn every_job_has_a_whole_order()
    ensures { (P : Plan) (G : Data) → IsConsistent P → (tasks : List Task) × IsWholeOrder P G tasks }
{}

/// A law: if all claimed tasks are finished, a task may be claimed if and only if it is new, and the source of each
/// edge into it is claimed and has outputs.
pub fn a_task_may_follow_finished_ones()
    ensures { (P : Plan) (G : Data) (S : MachineState) (t : Task) → IsConsistent P → IsSoundState P G S
        → ((u : Task) → IsIn u S.claims → IsFinished P G S u) → IsTask P t
        → MayClaim P S t
        ↔ ((IsIn t S.claims → ⊥)
        × ((e : Edge) → IsIn e (in_edges P t)
        → IsIn e.from S.claims × IsTrue (has_outputs (ended P G e.from)))) }
{}

/// A law: a text whose rows are well spelled is that of at most one list of tasks, so that it reads back to its list.
pub fn a_text_is_that_of_one_list()
    ensures { (P : Plan) (ts us : List Task) → AllByRecursion (IsTask P) ts → AllByRecursion (IsTask P) us
        → AllByRecursion IsSpelled (map (row_of P) ts) → AllByRecursion IsSpelled (map (row_of P) us)
        → length ts ≤ most_tasks → length us ≤ most_tasks → trace_text P ts ≡ trace_text P us → ts ≡ us }
{}

/// A law: the text of a whole order has no fault if it is within 16 MiB and its rows are well spelled, as they are if
/// the names of the job are those of a JDF.
pub fn the_text_of_a_whole_order_has_no_fault()
    ensures { (P : Plan) (G : Data) (ts : List Task) (f : TraceFault) → IsConsistent P → IsWholeOrder P G ts
        → AllByRecursion IsSpelled (map (row_of P) ts) → length (trace_text P ts) ≤ most_bytes
        → IsTraceFault P G (trace_text P ts) f → ⊥ }
{}

/// A law: a text has no fault if and only if it is the trace of a whole order, within 16 MiB. Each other text has a
/// fault.
pub fn every_text_has_a_fault_or_is_a_trace()
    ensures either { (P : Plan) (G : Data) (text : List ℕ) → IsConsistent P
        → (IsSomeTrace P G text → ⊥) ↔ ((f : TraceFault) × IsTraceFault P G text f) }
    ensures trace { (P : Plan) (G : Data) (text : List ℕ) → IsConsistent P
        → ((f : TraceFault) → IsTraceFault P G text f → ⊥) ↔ IsSomeTrace P G text }
{}

/// A law: a trace of tasks is their text, and its tasks are different tasks of the job.
pub fn a_trace_is_the_text_of_its_list()
    ensures { (P : Plan) (G : Data) (text : List ℕ) (tasks : List Task) → IsTrace P G text tasks
        → IsListOf P text tasks }
{}
