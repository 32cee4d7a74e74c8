//! A broadcast, claimed and sent in other orders than the program's.

use crate::jobs::numbers;
use crate::stepwise::{Step, Stepwise, answer_of_run_one};
use flow_meaning::Outcome;
use ptg_base::OutOfMemory;
use sample_jobs::broadcast;
use std::alloc::Global;

// The numbers of the three places, if this is the answer of a run all of whose four tasks ran.
fn found(answer: Option<Outcome>) -> Option<[i64; 3]> {
    match answer {
        Some(outcome) => numbers(&outcome),
        None => None,
    }
}

/// The edges are sent last to first, and readers are claimed and run between the sends.
pub const BETWEEN: &[(Step, bool)] = &[
    (Step::Claim(0, 0), true),
    (Step::Finish(0, 0), true),
    (Step::Edge(2), true),
    (Step::Claim(1, 2), true),
    (Step::Edge(1), true),
    (Step::Finish(1, 2), true),
    (Step::Write(2, 2), true),
    (Step::Edge(0), true),
    (Step::Claim(1, 0), true),
    (Step::Claim(1, 1), true),
    (Step::Finish(1, 0), true),
    (Step::Finish(1, 1), true),
    (Step::Write(0, 0), true),
    (Step::Write(1, 1), true),
];

/// All edges are sent first; the readers are claimed last to first, and end in another order.
pub const AFTER: &[(Step, bool)] = &[
    (Step::Claim(0, 0), true),
    (Step::Finish(0, 0), true),
    (Step::Edge(0), true),
    (Step::Edge(1), true),
    (Step::Edge(2), true),
    (Step::Claim(1, 2), true),
    (Step::Claim(1, 1), true),
    (Step::Claim(1, 0), true),
    (Step::Finish(1, 1), true),
    (Step::Finish(1, 0), true),
    (Step::Finish(1, 2), true),
    (Step::Write(1, 1), true),
    (Step::Write(2, 2), true),
    (Step::Write(0, 0), true),
];

/// With calls that are not allowed, each before or after one that would be.
pub const REFUSED: &[(Step, bool)] = &[
    // An edge has not come; there is no such task; the sender is not claimed.
    (Step::Claim(1, 0), false),
    (Step::Claim(1, 3), false),
    (Step::Claim(2, 0), false),
    (Step::Edge(0), false),
    (Step::Runs(1, 0), false),
    (Step::Runs(0, 0), false),
    (Step::IsOver, false),
    // A claim of a claimed task, and a send of a running one.
    (Step::Claim(0, 0), true),
    (Step::Claim(0, 0), false),
    (Step::Edge(0), false),
    (Step::Runs(0, 0), true),
    (Step::Finish(0, 0), true),
    (Step::Runs(0, 0), false),
    (Step::Claim(0, 0), false),
    // An edge that the job does not have, one that was sent, a claim of a task whose edge was not sent, and one of a
    // claimed task.
    (Step::Edge(3), false),
    (Step::Edge(1), true),
    (Step::Edge(1), false),
    (Step::Claim(1, 0), false),
    (Step::IsOver, false),
    (Step::Claim(1, 1), true),
    (Step::Claim(1, 1), false),
    (Step::Edge(1), false),
    // The same for write-backs.
    (Step::Write(0, 0), false),
    (Step::Write(1, 1), false),
    (Step::Runs(1, 1), true),
    (Step::Finish(1, 1), true),
    (Step::Write(1, 0), false),
    (Step::Write(1, 1), true),
    (Step::Write(1, 1), false),
    (Step::IsOver, false),
    // What was refused is allowed in its turn, up to the last step.
    (Step::Edge(0), true),
    (Step::Edge(2), true),
    (Step::Claim(1, 0), true),
    (Step::Claim(1, 2), true),
    (Step::Finish(1, 2), true),
    (Step::Finish(1, 0), true),
    (Step::Write(0, 0), true),
    (Step::IsOver, false),
    (Step::Write(2, 2), true),
    (Step::IsOver, true),
    // Nothing is left.
    (Step::Claim(1, 2), false),
    (Step::Write(2, 2), false),
    (Step::IsOver, true),
];

/// How the broadcast ended in one order of steps.
#[derive(Clone, Copy)]
pub enum End {
    /// All tasks ran, and these are the numbers of the three places.
    Numbers([i64; 3]),
    /// The step with this number, counted from 0, did not return what it should.
    Otherwise(usize),
    /// Not all tasks ran.
    NotComplete,
    /// One thread has another answer.
    Differs,
    /// The job is not consistent.
    NoJob,
}

/// The broadcast in one order of steps, compared with the answer of one thread.
pub fn end_of(alloc: Global, steps: &[(Step, bool)]) -> Result<End, OutOfMemory> {
    let texts = broadcast();
    let Some(mut run) = Stepwise::start(alloc, &texts)? else {
        return Ok(End::NoJob);
    };
    if let Some(number) = run.first_other(steps)? {
        return Ok(End::Otherwise(number));
    }
    let Some(numbers) = found(run.answer()?) else {
        return Ok(End::NotComplete);
    };
    match found(answer_of_run_one(alloc, &texts)?) {
        Some(wanted) if wanted == numbers => Ok(End::Numbers(numbers)),
        _ => Ok(End::Differs),
    }
}
