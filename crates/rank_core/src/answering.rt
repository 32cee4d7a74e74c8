//! The answer of a job that is run by ranks.

ghost use Rattle.std.specs.Prelude.{◌≡◌, IfOk};
ghost use Rattle.ptg_base.specs.Limits.{IsRankCount};
ghost use Rattle.plan_data.specs.Fit.{DataFit};
ghost use Rattle.flow_meaning.specs.Answer as meaning;
ghost use Rattle.rank_core.specs.Sound.{message_count};

use crate::driving::drive;
use crate::world::World;
use coll_data::Given;
use dep_iter::Matched;
use flow_meaning::Outcome;
use ptg_base::OutOfMemory;
use std::alloc::Global;

/// Runs a job by this many ranks, in the order of a seed. Returns how many messages the ranks send, and the job's
/// answer.
pub fn ranks_of(
    alloc: Global,
    m: &Matched,
    given: Given,
    ranks: u32,
    seed: u64,
) -> Result<(u64, Outcome), OutOfMemory>
    requires fit { DataFit m.now given }
    requires ranks { IsRankCount ranks }
    ensures messages { IfOk result (λ (messages, outcome). messages ≡ message_count m.now given ranks) }
    ensures answer { IfOk result (λ (messages, outcome). outcome ≡ meaning.answer m.now given) }
{
    let mut world = World::new(alloc, m, given, ranks)?;
    drive(&mut world, seed)?;
    let messages = world.messages();
    Ok((messages, world.answer()?))
}
