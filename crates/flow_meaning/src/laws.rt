//! Laws of the backward meaning of a job.

ghost use Rattle.std.specs.Prelude.{◌≡◌, ◌+◌, ℕ, IsTrue, Some, slice_get};
ghost use Rattle.ptg_base.specs.Lists.{IsIn};
ghost use Rattle.ptg_base.specs.Task.{Task};
ghost use Rattle.ptg_base.specs.declared.edge.Edge.{Edge};
ghost use Rattle.plan_core.specs.declared.flow.FlowPlan.{FlowPlan};
ghost use Rattle.plan_core.specs.declared.plan.Plan.{Plan};
ghost use Rattle.plan_core.specs.Kinds.{is_data};
ghost use Rattle.coll_data.specs.Data.{Data};
ghost use Rattle.dep_iter.specs.declared.source.Source.TheVariants as source;
ghost use Rattle.dep_iter.specs.Tasks.{IsTask, flows_of};
ghost use Rattle.dep_iter.specs.Edges.{data_source, in_edges};
ghost use Rattle.dep_iter.specs.Well.{IsWellTask};
ghost use Rattle.dep_iter.specs.Consistent.{IsConsistent};
ghost use Rattle.flow_meaning.specs.Ending.{Ended};
ghost use Rattle.flow_meaning.specs.Backward.{ended, ended_after, ended_within};

/// A law: if the source of a data flow of a well task is an edge, that edge goes into the task. It is the only one into
/// that flow.
pub fn the_source_of_a_flow_is_the_edge_into_it()
    ensures among { (P : Plan) (t : Task) (n : ℕ) (f : FlowPlan) (e : Edge) → IsTask P t → IsWellTask P t
        → slice_get (flows_of P t) n ≡ Some f → IsTrue (is_data (Some f.kind)) → data_source P t n ≡ source.Task e
        → IsIn e (in_edges P t) × (e.in_flow ≡ n) }
    ensures only { (P : Plan) (t : Task) (n : ℕ) (f : FlowPlan) (e : Edge) → IsTask P t → IsWellTask P t
        → slice_get (flows_of P t) n ≡ Some f → IsTrue (is_data (Some f.kind)) → IsIn e (in_edges P t) → e.in_flow ≡ n
        → data_source P t n ≡ source.Task e }
{}

/// A law: if a round finds how a task ends, later rounds find the same. So no task ends in two ways.
pub fn what_a_round_finds_stays()
    ensures stays { (P : Plan) (G : Data) (n more : ℕ) (t : Task) (end : Ended) → IsConsistent P → IsTask P t
        → ended_within P G n t ≡ Some end → ended_within P G (n + more) t ≡ Some end }
    ensures found { (P : Plan) (G : Data) (n : ℕ) (t : Task) (end : Ended) → IsConsistent P → IsTask P t
        → ended_within P G n t ≡ Some end → ended P G t ≡ Some end }
{}

/// A law: as many rounds as there are tasks are enough. How a task ends is determined by how its sources end.
pub fn a_task_ends_by_its_sources()
    ensures { (P : Plan) (G : Data) (t : Task) → IsConsistent P → IsTask P t
        → ended P G t ≡ ended_after P G (ended P G) t }
{}
