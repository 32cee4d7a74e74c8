//! How many edges have arrived at each task.

ghost use Rattle.std.specs.Prelude.{◌≡◌, ◌+◌, ◌<◌, ◌≤◌, IsTrue};
ghost use Rattle.ptg_base.specs.Limits.{most_edges};
ghost use Rattle.indexmap.specs.IndexMap.{spare};
ghost use Rattle.ptg_base.specs.Task.{Task};
ghost use Rattle.ptg_base.specs.TaskComparing.{same_task};
ghost use Rattle.list_lemmas.specs.Counting.{as_number};
ghost use Rattle.flow_core.specs.Arrivals.{is_edge_to};
ghost use Rattle.flow_meaning.specs.Numbers.{number_for};

use indexmap::IndexMap;
use ptg_base::{Item, TaskId};

// The number of a task, 0 if the table has none.
pub(crate) fn number_at(table: &IndexMap<TaskId, u32>, t: &TaskId) -> u32
    ensures { result ≡ number_for table.now.entries t.now }
{
    match table.get(t) {
        Some(n) => *n,
        None => 0,
    }
}

// Adds one to the number of a task.
fn add_one(table: &mut IndexMap<TaskId, u32>, t: &TaskId)
    requires room { 0 < spare table.old }
    requires at_most { number_for table.old.entries t.now ≤ most_edges }
    ensures { (u : Task)
        → number_for table.new.entries u
        ≡ number_for table.old.entries u + as_number (same_task u t.now) }
{
    let n = number_at(table, t);
    let _old = table.insert(t.copy(), n + 1).unwrap();
}

// Counts an item at the task that it goes to, if it is an edge.
pub(crate) fn count_item(table: &mut IndexMap<TaskId, u32>, item: &Item)
    requires room { 0 < spare table.old }
    requires at_most { (u : Task) → IsTrue (is_edge_to u item.now)
        → number_for table.old.entries u ≤ most_edges }
    ensures { (u : Task)
        → number_for table.new.entries u
        ≡ number_for table.old.entries u + as_number (is_edge_to u item.now) }
{
    if let Item::Edge(e) = item {
        add_one(table, &e.to);
    }
}
