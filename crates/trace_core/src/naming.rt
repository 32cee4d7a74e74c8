//! The tasks that rows name.

ghost use Rattle.std.specs.Prelude.{◌≡◌, ◌+◌, ◌<◌, ◌≤◌, ℕ, Some, MatchOption, length, slice_get};
ghost use Rattle.ptg_base.specs.Limits.{most_classes, most_params};
ghost use Rattle.ptg_base.specs.Task.{Task};
ghost use Rattle.term_core.specs.declared.space.ClassSpace.{ClassSpace};
ghost use Rattle.trace_core.specs.Naming.{IsNamed, Names};
ghost use Rattle.trace_core.specs.Rows.{IsRowOf};
ghost use Rattle.trace_core.specs.Text.{TraceRow};

use crate::numbers::push_numbers;
use crate::rows::Row;
use dep_iter::is_task;
use plan_core::{ClassPlan, Plan};
use ptg_base::TaskId;
use range_space::Numbers;

// The number of the class with this name, if there is one; the first of these classes has number `n`.
fn class_among(classes: &[ClassPlan], name: &[u8], n: u32) -> Option<u32>
    requires { n + length classes.now ≤ most_classes }
    ensures { MatchOption result ((k : ℕ) → IsNamed classes.now name.now k → ⊥) (λ number.
        (k : ℕ) × IsNamed classes.now name.now k × (number ≡ n + k)) }
{
    let Some((first, later)) = classes.split_first() else {
        return None;
    };
    if first.name.bytes() == name {
        return Some(n);
    }
    class_among(later, name, n + 1)
}

// The number of the class with this name, if there is one.
fn class_named(plan: &Plan, name: &[u8]) -> Option<u32>
    ensures { MatchOption result ((k : ℕ) → IsNamed plan.now.classes name.now k → ⊥) (λ k.
        IsNamed plan.now.classes name.now k) }
{
    class_among(plan.classes.as_slice(), name, 0)
}

// A law: a class has at most 8 parameters.
fn parameters_fit(plan: &Plan, class: u32)
    requires { class < length plan.now.classes }
    ensures { (s : ClassSpace) → slice_get plan.now.spaces class ≡ Some s → length s.params ≤ most_params }
{
    let _ = plan.space(class).params.as_slice().len();
}

// The task that a row names, if the job has it.
pub(crate) fn task_of(plan: &Plan, row: &Row) -> Option<TaskId>
    ensures { (e : TraceRow) → IsRowOf e row.now.name.now row.now.numbers.now
        → MatchOption result ((t : Task) → Names plan.now e t → ⊥) (λ t. Names plan.now e t) }
{
    let Some(class) = class_named(plan, row.name) else {
        return None;
    };
    parameters_fit(plan, class);
    let mut params = Numbers::new();
    if !push_numbers(row.numbers, &mut params) {
        return None;
    }
    let t = TaskId::new(class, params.as_slice());
    if !is_task(plan, &t) {
        return None;
    }
    Some(t)
}
