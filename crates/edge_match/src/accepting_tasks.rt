//! The walk over all tasks.

ghost use Rattle.std.specs.Prelude.{◌≡◌, ◌==◌, ◌∷◌, [], IfSome, length};
ghost use Rattle.std.specs.Bool.{OnTrue};
ghost use Rattle.plan_core.specs.Place.{HasPlace};
ghost use Rattle.dep_iter.specs.Consistent.{roots};
ghost use Rattle.dep_iter.specs.Edges.{goal};
ghost use Rattle.dep_iter.specs.Hints as hints;
ghost use Rattle.dep_iter.specs.Tasks.{all_tasks};
ghost use Rattle.dep_iter.specs.Well.{IsWellTask};
ghost use Rattle.edge_match.specs.Tallies.{WentOver};

use crate::accepting_flows::accept_flows;
use crate::class_form::ClassForm;
use crate::tally::Tally;
use dep_iter::{TaskAt, all_tasks, all_tasks_are_listed};
use plan_core::Plan;
use range_space::Numbers;

// Whether each expression that the task needs has a value, and the place of its affinity exists. The form is that of its
// class.
fn is_sound(form: &ClassForm, task: &TaskAt) -> bool
    requires plan { form.now.plan.now ≡ task.now.plan.now }
    requires class { form.now.class ≡ task.now.task.now.class }
    ensures well { OnTrue result (IsWellTask task.now.plan.now task.now.task.now) }
    ensures place { OnTrue result (HasPlace task.now.plan.now.colls
        (hints.affinity task.now.plan.now task.now.task.now)) }
{
    if !form.is_well(task) {
        return false;
    }
    task.plan.has_place(&task.affinity())
}

// Whether the task and its flows are sound. Counts its edges and write-backs.
fn accept_task(form: &ClassForm, task: &TaskAt, tally: &mut Tally) -> bool
    requires plan { form.now.plan.now ≡ task.now.plan.now }
    requires class { form.now.class ≡ task.now.task.now.class }
    ensures { OnTrue result (WentOver task.now.plan.now tally.old tally.new (task.now.task.now ∷ [])) }
{
    if !is_sound(form, task) {
        return false;
    }
    accept_flows(task, 0, tally)
}

// Whether no edge goes into the task, or None if it is not accepted.
fn accept_next(form: &ClassForm, task: &TaskAt, tally: &mut Tally) -> Option<bool>
    requires plan { form.now.plan.now ≡ task.now.plan.now }
    requires class { form.now.class ≡ task.now.task.now.class }
    ensures walk { IfSome result (λ _. WentOver task.now.plan.now tally.old tally.new (task.now.task.now ∷ [])) }
    ensures root { IfSome result (λ root. root ≡ (goal task.now.plan.now task.now.task.now == 0)) }
{
    let before = tally.ins.edges;
    if !accept_task(form, task, tally) {
        return None;
    }
    Some(tally.ins.edges == before)
}

// Walks over all tasks, given their number, and counts those without an edge into them; None if one is not accepted. If
// there are no tasks, no range is walked.
pub(crate) fn accept_all(plan: &Plan, tasks: u64, tally: &mut Tally) -> Option<u64>
    requires { tasks ≡ length (all_tasks plan.now) }
    ensures walk { IfSome result (λ _. WentOver plan.now tally.old tally.new (all_tasks plan.now)) }
    ensures count { IfSome result (λ n. n ≡ length (roots plan.now)) }
{
    if tasks == 0 {
        return Some(0);
    }
    all_tasks_are_listed();
    let mut form = ClassForm::of(plan, 0);
    let mut room = Numbers::new();
    let mut count = 0;
    for t in all_tasks(plan) {
        let task = TaskAt::of(plan, &t, &mut room);
        form = form.follow(t.class());
        let root = accept_next(&form, &task, tally)?;
        count += u64::from(root);
    }
    Some(count)
}
