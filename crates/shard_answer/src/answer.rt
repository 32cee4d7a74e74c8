//! The answer of a run in which nothing more can happen.
ghost use Rattle.std.specs.Prelude.{◌≡◌, ◌≤◌, IfOk, IsOk, length, unwrap_or, vec_capacity, vec_len, []};
ghost use Rattle.std.specs.List.{All};
ghost use Rattle.ptg_base.specs.Lists.{IsIn};
ghost use Rattle.ptg_base.specs.TaskOrder.{in_task_order};
ghost use Rattle.plan_data.specs.Fit.{DataFit};
ghost use Rattle.dep_iter.specs.Tasks.{all_tasks};
ghost use Rattle.dep_shard.specs.Content.{Content};
ghost use Rattle.flow_meaning.specs.declared.outcome.Outcome.TheVariants.{Complete};
ghost use Rattle.flow_meaning.specs.declared.outcome.TrapRow.{TrapRow as TrapRowValue};
ghost use Rattle.flow_meaning.specs.Answer.{answer};
ghost use Rattle.flow_meaning.specs.Final.{replaced_data};
ghost use Rattle.flow_meaning.specs.StateAnswer.{first_written};
ghost use Rattle.run_answer.specs.Written.{IsWritable, with_tiles};
ghost use Rattle.shard_answer.specs.Ending.{HoldAnEnd};
ghost use Rattle.shard_answer.specs.Parts.{all_traps, all_written};

use crate::room::Room;
use crate::rows::{ended_of, entries_are_distinct, push_traps, push_waits};
use coll_data::Given;
use dep_iter::Matched;
use dep_shard::Shard;
use flow_meaning::{Outcome, TrapRow, WaitRow};
use ptg_base::{OutOfMemory, Seq};
use run_answer::{traps_in_task_order, waits_in_task_order, with_written};

/// The answer of a job from the shards of a run in which nothing more can happen. No tile is copied. With room for a
/// row for each task it takes no memory.
pub fn outcome_of(
    m: &Matched,
    given: Given,
    shards: Vec<Shard>,
    room: Room,
) -> Result<Outcome, OutOfMemory>
    requires known { DataFit m.now given }
    requires end { HoldAnEnd m.now given shards.items }
    ensures answer { IfOk result (λ outcome. outcome ≡ answer m.now given) }
    ensures succeeds { length (all_tasks m.now) ≤ room → IsOk result }
{
    m.plan_is_consistent();
    given.data_are_well_made();
    match incomplete(m, &given, shards.as_slice(), room)? {
        Some(outcome) => Ok(outcome),
        None => Ok(Outcome::Complete(m.tasks(), final_data(given, shards))),
    }
}

// The answer of a run that is not complete: its traps, or its stall. `None` if all tasks ran without a trap.
fn incomplete(
    m: &Matched,
    given: &Given,
    shards: &[Shard],
    room: Room,
) -> Result<Option<Outcome>, OutOfMemory>
    requires known { DataFit m.now given.now }
    requires end { HoldAnEnd m.now given.now shards.now }
    ensures answer { IfOk result (λ found.
        unwrap_or found
        (Complete (length (all_tasks m.now))
        (replaced_data (λ here. first_written here (with_tiles (all_written shards.now))) given.now))
        ≡ answer m.now given.now) }
    ensures succeeds { length (all_tasks m.now) ≤ room → IsOk result }
{
    m.plan_is_consistent();
    given.data_are_well_made();
    let (traps, waits) = room.into_rows();
    let traps = trap_rows(m, given, shards, traps)?;
    if !traps.is_empty() {
        return Ok(Some(Outcome::Trapped(traps)));
    }
    stall(m, given, shards, waits)
}

// The rows of the tasks that trapped, in task order.
fn trap_rows(
    m: &Matched,
    given: &Given,
    shards: &[Shard],
    rows: Vec<TrapRow>,
) -> Result<Seq<TrapRow>, OutOfMemory>
    requires end { HoldAnEnd m.now given.now shards.now }
    requires empty { (rows.items ≡ []) × (vec_len rows ≡ 0) }
    ensures rows { IfOk result (λ traps. traps ≡ in_task_order (λ (r : TrapRowValue). r.task) (all_traps shards.now)) }
    ensures succeeds { length (all_tasks m.now) ≤ vec_capacity rows → IsOk result }
{
    m.plan_is_consistent();
    let mut rows = rows;
    push_traps(shards, &mut rows)?;
    Ok(traps_in_task_order(rows))
}

// The answer of a run without traps that has stalled. `None` if all tasks ran.
fn stall(
    m: &Matched,
    given: &Given,
    shards: &[Shard],
    rows: Vec<WaitRow>,
) -> Result<Option<Outcome>, OutOfMemory>
    requires known { DataFit m.now given.now }
    requires end { HoldAnEnd m.now given.now shards.now }
    requires none { in_task_order (λ (r : TrapRowValue). r.task) (all_traps shards.now) ≡ [] }
    requires empty { (rows.items ≡ []) × (vec_len rows ≡ 0) }
    ensures answer { IfOk result (λ found.
        unwrap_or found
        (Complete (length (all_tasks m.now))
        (replaced_data (λ here. first_written here (with_tiles (all_written shards.now))) given.now))
        ≡ answer m.now given.now) }
    ensures succeeds { length (all_tasks m.now) ≤ vec_capacity rows → IsOk result }
{
    m.plan_is_consistent();
    given.data_are_well_made();
    let ran = ended_of(shards);
    let all = m.tasks();
    if ran == all {
        return Ok(None);
    }
    entries_are_distinct(shards);
    let mut rows = rows;
    push_waits(shards, &mut rows)?;
    Ok(Some(Outcome::Stalled(ran, all, waits_in_task_order(rows))))
}

// The data with what was written back in these shards. No tile is copied.
fn final_data(given: Given, shards: Vec<Shard>) -> Given
    requires { (y : Content) → IsIn y shards.items → All (IsWritable given) y.written }
    ensures { result ≡ replaced_data (λ here. first_written here (with_tiles (all_written shards.items))) given }
{
    let mut given = given;
    let mut shards = shards;
    while let Some(shard) = shards.pop() {
        given = with_written(given, shard.into_parts().written);
    }
    given
}
