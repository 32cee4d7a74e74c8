//! A broadcast between ranks, whose messages come in several orders. In three ranks, Src(0) and Sink(0) belong to rank
//! 0, Sink(1) to rank 1 and Sink(2) to rank 2; message 0 goes to Sink(1) and message 1 to Sink(2).

ghost use Rattle.ptg_base.specs.Limits.{IsRankCount};

use crate::jobs::numbers;
use crate::steps::{Step, first_other};
use job_stages::job_of_texts;
use ptg_base::OutOfMemory;
use rank_core::World;
use sample_jobs::broadcast;
use std::alloc::Global;
use std::fmt;

/// Each message is delivered three times, twice after its target ran.
pub const THRICE: &[(Step, bool)] = &[
    (Step::Ready(0, 0, 0), true),
    (Step::HasReady(1), false),
    (Step::HasReady(2), false),
    (Step::Sent(0), true),
    (Step::IsQuiescent, false),
    (Step::Run(0, 0), true),
    (Step::Sent(2), true),
    (Step::Ready(0, 1, 0), true),
    (Step::HasReady(1), false),
    (Step::Deliver(0), true),
    (Step::Ready(1, 1, 1), true),
    (Step::Run(1, 1), true),
    (Step::Deliver(0), false),
    (Step::Deliver(0), false),
    (Step::HasReady(1), false),
    (Step::Deliver(1), true),
    (Step::Run(1, 2), true),
    (Step::Deliver(1), false),
    (Step::Deliver(1), false),
    (Step::IsQuiescent, false),
    (Step::Run(1, 0), true),
    (Step::HasReady(0), false),
    (Step::HasReady(2), false),
    (Step::Sent(2), true),
    (Step::IsQuiescent, true),
];

/// The same with the last message first, and the other one after all other tasks.
pub const LATE: &[(Step, bool)] = &[
    (Step::Run(0, 0), true),
    (Step::Run(1, 0), true),
    (Step::IsQuiescent, false),
    (Step::Deliver(1), true),
    (Step::Run(1, 2), true),
    (Step::Deliver(1), false),
    (Step::IsQuiescent, false),
    (Step::Deliver(0), true),
    (Step::Deliver(1), false),
    (Step::IsQuiescent, false),
    (Step::Run(1, 1), true),
    (Step::Deliver(0), false),
    (Step::Deliver(0), false),
    (Step::IsQuiescent, true),
];

/// The same with both messages delivered before any reader runs.
pub const EARLY: &[(Step, bool)] = &[
    (Step::Run(0, 0), true),
    (Step::Deliver(1), true),
    (Step::Deliver(0), true),
    (Step::Ready(0, 1, 0), true),
    (Step::Ready(1, 1, 1), true),
    (Step::Ready(2, 1, 2), true),
    (Step::Run(1, 1), true),
    (Step::Run(1, 2), true),
    (Step::Deliver(0), false),
    (Step::Deliver(1), false),
    (Step::IsQuiescent, false),
    (Step::Run(1, 0), true),
    (Step::Deliver(1), false),
    (Step::Deliver(0), false),
    (Step::IsQuiescent, true),
];

/// With calls that change nothing, each before or after one that does. There are four ranks, and the last has no tasks.
pub const REFUSED: &[(Step, bool)] = &[
    // No edge into these tasks was sent.
    (Step::Run(1, 0), false),
    (Step::Run(1, 1), false),
    // There are no such tasks.
    (Step::Run(0, 1), false),
    (Step::Run(1, 3), false),
    (Step::Run(2, 0), false),
    // No task may run at these ranks, and no message was sent.
    (Step::HasReady(1), false),
    (Step::HasReady(3), false),
    (Step::Sent(0), true),
    (Step::Run(0, 0), true),
    // It has run.
    (Step::Run(0, 0), false),
    // The messages to these are on their way.
    (Step::Run(1, 1), false),
    (Step::Run(1, 2), false),
    (Step::Run(1, 0), true),
    (Step::Run(1, 0), false),
    (Step::HasReady(0), false),
    (Step::Deliver(0), true),
    (Step::Deliver(0), false),
    (Step::Run(1, 2), false),
    (Step::Run(1, 1), true),
    (Step::Run(1, 1), false),
    // A message that comes after its target has run lets nothing run again.
    (Step::Deliver(0), false),
    (Step::HasReady(1), false),
    (Step::Run(1, 1), false),
    (Step::IsQuiescent, false),
    (Step::Deliver(1), true),
    (Step::IsQuiescent, false),
    (Step::Run(1, 2), true),
    (Step::Run(1, 2), false),
    (Step::HasReady(3), false),
    (Step::IsQuiescent, true),
];

/// The last message does not come.
pub const LEFT: &[(Step, bool)] = &[
    (Step::Run(0, 0), true),
    (Step::Deliver(0), true),
    (Step::Run(1, 0), true),
    (Step::Run(1, 1), true),
    (Step::HasReady(0), false),
    (Step::HasReady(1), false),
    (Step::HasReady(2), false),
];

/// How the broadcast ended in one order of steps.
#[derive(Drop)]
pub enum End {
    /// All tasks ran: how many messages were sent, and the numbers of the three places.
    Numbers(u64, [i64; 3]),
    /// The step with this number, counted from 0, did not return what it should.
    Otherwise(usize),
    /// Something more can happen.
    NotQuiescent,
    /// Not all tasks ran.
    NotComplete,
    /// The job is not consistent.
    NoJob,
}

impl fmt::Display for End {
    fn fmt<W: fmt::Write>(&self, f: &mut fmt::Formatter<W>) -> fmt::Result {
        match self {
            End::Numbers(sent, n) => write!(f, "{sent},{},{},{}", n[0], n[1], n[2]),
            End::Otherwise(number) => write!(f, "step {number} was answered otherwise"),
            End::NotQuiescent => write!(f, "not quiescent"),
            End::NotComplete => write!(f, "not all tasks ran"),
            End::NoJob => write!(f, "the job is not consistent"),
        }
    }
}

// How a world ends.
fn ending(world: World<'_>) -> Result<End, OutOfMemory> {
    if !world.quiescent() {
        return Ok(End::NotQuiescent);
    }
    let sent = world.messages();
    match numbers(&world.answer()?) {
        Some(numbers) => Ok(End::Numbers(sent, numbers)),
        None => Ok(End::NotComplete),
    }
}

/// The broadcast in this many ranks, in one order of steps.
pub fn end_of(alloc: Global, ranks: u32, steps: &[(Step, bool)]) -> Result<End, OutOfMemory>
    requires { IsRankCount ranks }
{
    let texts = broadcast();
    let Some((job, given)) = job_of_texts(alloc, texts.jdf, texts.data)? else {
        return Ok(End::NoJob);
    };
    let mut world = World::new(alloc, &job, given, ranks)?;
    if let Some(number) = first_other(&mut world, steps)? {
        return Ok(End::Otherwise(number));
    }
    ending(world)
}
