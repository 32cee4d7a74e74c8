//! How many edges each task lacks.

ghost use Rattle.std.specs.Prelude.{◌≡◌, ◌+◌, ◌<◌, IfOk, OnOk, Some, None, MatchOption};
ghost use Rattle.std.specs.Map.{lookup, set_value};
ghost use Rattle.ptg_base.specs.Task.{Task};
ghost use Rattle.ptg_base.specs.TaskComparing.{same_task};
ghost use Rattle.dep_iter.specs.Tasks.{IsTask};
ghost use Rattle.list_lemmas.specs.Counting.{as_number};
ghost use Rattle.chain_cert.specs.Growing as growing;

use dep_iter::Matched;
use goal_count::goal;
use indexmap::IndexMap;
use ptg_base::{OutOfMemory, TaskId};

// Lowers the number that a table has for a task by 1, and returns it; None if the table has none.
fn lower(table: &mut IndexMap<TaskId, u32>, t: &TaskId) -> Option<u32>
    requires { lookup (same_task t.now) table.old.entries ≡ Some 0 → ⊥ }
    ensures { MatchOption result
        (table.new.entries ≡ table.old.entries × (lookup (same_task t.now) table.old.entries ≡ None)) (λ left.
        (lookup (same_task t.now) table.old.entries ≡ Some (left + 1))
        × (table.new.entries ≡ set_value (same_task t.now) table.old.entries left)) }
{
    let Some(number) = table.get_mut(t) else {
        return None;
    };
    *number -= 1;
    Some(*number)
}

// Notes that an edge into a task has come, and returns how many edges the task still lacks.
pub(crate) fn note_edge(
    table: &mut IndexMap<TaskId, u32>,
    m: &Matched,
    t: &TaskId,
) -> Result<u32, OutOfMemory>
    requires task { IsTask m.now t.now }
    requires lacks { 0 < growing.lacking m.now table.old.entries t.now }
    ensures left { IfOk result (λ left. left + 1 ≡ growing.lacking m.now table.old.entries t.now) }
    ensures table { OnOk result
        ((u : Task)
        → growing.lacking m.now table.new.entries u + as_number (same_task u t.now)
        ≡ growing.lacking m.now table.old.entries u) }
{
    if let Some(left) = lower(table, t) {
        return Ok(left);
    }
    let left = goal(m, t) - 1;
    table.insert(t.copy(), left)?;
    Ok(left)
}
