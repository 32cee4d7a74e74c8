//! What a claim and an end change in the shard whose turn is held.

ghost use Rattle.std.specs.Prelude.{[], IfNone, IfSome, ◌≡◌, ◌<◌, Some};
ghost use Rattle.ptg_base.specs.Entry.{Entry};
ghost use Rattle.ptg_base.specs.Limits.{most_tasks};
ghost use Rattle.dep_shard.specs.Content.{Ends, HasNoReadyOf, KeepsEntriesAndWritten, KeepsSpares, Takes, entry_of};

use dep_shard::{Arrivals, Shard};
use ptg_base::{MOST_TASKS, TaskId};

// Takes the ready entry of a task out of a shard, if there is one. If the task has an entry, the shard runs fewer tasks
// than a job may have.
pub(crate) fn take_ready(shard: &mut Shard, t: &TaskId) -> Option<Arrivals>
    requires { (e : Entry) → entry_of shard.old t.now ≡ Some e → shard.old.running < most_tasks }
    ensures none { IfNone result (HasNoReadyOf shard.old t.now) }
    ensures same { IfNone result (shard.new ≡ shard.old) }
    ensures some { IfSome result (λ tiles. Takes shard.old shard.new t.now tiles) }
    ensures spare { KeepsSpares shard.old.spare shard.new.spare }
{
    if shard.running() >= MOST_TASKS {
        return None;
    }
    shard.take_ready(t)
}

// Ends a running task of a shard. The shard keeps the tiles that came with it as far as it has room, and drops the
// others.
pub(crate) fn end_task(shard: &mut Shard, spent: &mut Arrivals)
    requires running { 0 < shard.old.running }
    requires bound { shard.old.ended < most_tasks }
    ensures spent { spent.new ≡ [] }
    ensures ends { Ends shard.old shard.new }
    ensures rest { KeepsEntriesAndWritten shard.old shard.new }
    ensures trapped { shard.new.trapped ≡ shard.old.trapped }
    ensures spare { KeepsSpares shard.old.spare shard.new.spare }
{
    shard.end();
    shard.reuse(spent);
}
