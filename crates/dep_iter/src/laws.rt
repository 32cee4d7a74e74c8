//! Laws of tasks and edges.

ghost use Rattle.std.specs.Prelude.{◌≡◌, ◌≤◌, ◌↔◌, ℕ, ℤ, List, filter_map, length, map};
ghost use Rattle.ptg_base.specs.Lists.{HasNoRepeats, IsIn};
ghost use Rattle.ptg_base.specs.Task.{Task};
ghost use Rattle.term_core.specs.declared.direction.Direction.TheVariants.{In, Out};
ghost use Rattle.range_space.specs.Walk.{task_total};
ghost use Rattle.plan_core.specs.declared.plan.Plan.{Plan};
ghost use Rattle.plan_core.specs.declared.target.Target.{Target};
ghost use Rattle.dep_iter.specs.Tasks.{IsTask, all_tasks};
ghost use Rattle.dep_iter.specs.Links.{edge_of_link, task_links};
ghost use Rattle.dep_iter.specs.Edges as edges;
ghost use Rattle.dep_iter.specs.Items as items;
ghost use Rattle.dep_iter.specs.Consistent as consistent;

/// A law: the list of all tasks has exactly the tasks of the job, as many as its classes have together.
pub fn all_tasks_are_listed()
    ensures members { (P : Plan) (t : Task) → IsTask P t ↔ IsIn t (all_tasks P) }
    ensures count { (P : Plan) → length (all_tasks P) ≡ task_total P.spaces }
{}

/// A law: a task has no more edges into it, and no more out of it, than the job has.
pub fn a_task_has_no_more_edges_than_the_job()
    ensures ins { (P : Plan) (t : Task) → IsTask P t → length (edges.in_edges P t) ≤ length (consistent.all_in P) }
    ensures outs { (P : Plan) (t : Task) → IsTask P t → length (items.out_edges P t) ≤ length (consistent.all_out P) }
{}

/// A law: in each direction, the edges of a task are its links with the task itself added.
pub fn edges_are_links()
    ensures ins { (P : Plan) (t : Task) → map (edge_of_link In t) (task_links P t In) ≡ edges.in_edges P t }
    ensures outs { (P : Plan) (t : Task) → map (edge_of_link Out t) (task_links P t Out) ≡ items.out_edges P t }
{}

/// A law: within one dependence no edge occurs twice, in either direction.
pub fn edges_of_a_dependence_differ()
    ensures ins { (t : Task) (env : List ℤ) (n : ℕ) (x : Target) → HasNoRepeats (edges.edges_into t env n x) }
    ensures outs { (t : Task) (env : List ℤ) (n : ℕ) (x : Target)
        → HasNoRepeats (filter_map items.edge_of (items.items_to t env n x)) }
{}
