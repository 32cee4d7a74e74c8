//! Rows in task order.

ghost use Rattle.std.specs.Prelude.{◌≡◌};
ghost use Rattle.ptg_base.specs.TaskOrder.{in_task_order};
ghost use Rattle.flow_meaning.specs.declared.outcome.TrapRow.{TrapRow as TrapRowValue};
ghost use Rattle.flow_meaning.specs.declared.outcome.WaitRow.{WaitRow as WaitRowValue};
ghost use Rattle.run_answer.specs.Rows.{AreOfDifferentTasks};

use flow_meaning::{TrapRow, WaitRow};
use ptg_base::Seq;

/// The rows of tasks that trapped, in the order of their tasks. It takes no memory.
pub fn traps_in_task_order(traps: Vec<TrapRow>) -> Seq<TrapRow>
    requires { AreOfDifferentTasks (λ (r : TrapRowValue). r.task) traps.items }
    ensures { result ≡ in_task_order (λ (r : TrapRowValue). r.task) traps.items }
{
    let mut traps = traps;
    traps.sort_unstable_by(|a, b| a.task.cmp(&b.task));
    Seq::of(traps)
}

/// The rows of tasks that wait, in the order of their tasks. It takes no memory.
pub fn waits_in_task_order(waits: Vec<WaitRow>) -> Seq<WaitRow>
    requires { AreOfDifferentTasks (λ (r : WaitRowValue). r.task) waits.items }
    ensures { result ≡ in_task_order (λ (r : WaitRowValue). r.task) waits.items }
{
    let mut waits = waits;
    waits.sort_unstable_by(|a, b| a.task.cmp(&b.task));
    Seq::of(waits)
}
