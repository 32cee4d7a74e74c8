//! The jobs that are run, each with what `run` prints of it.

use crate::runs::Job;

// A sample job, with what is printed of it.
fn with_answer(sample: sample_jobs::Job, answer: &'static [u8]) -> Job<'static> {
    Job {
        jdf: sample.jdf,
        data: sample.data,
        answer,
    }
}

/// Two tasks without an edge between them.
pub fn two_tasks() -> Job<'static> {
    let answer = b"complete,2
tile,D,0,0
";
    with_answer(sample_jobs::two_tasks(), answer)
}

/// The made job of four rows of tiles.
pub fn cholesky() -> Job<'static> {
    let answer = b"complete,20
tile,D,0,0,1,0,1
tile,D,0,1,0,0,0
tile,D,0,2,0,0,0
tile,D,0,3,0,0,0
tile,D,1,0,1,0,1
tile,D,1,1,2,1,1
tile,D,1,2,0,0,0
tile,D,1,3,0,0,0
tile,D,2,0,1,0,1
tile,D,2,1,2,1,1
tile,D,2,2,3,3,1
tile,D,2,3,0,0,0
tile,D,3,0,1,0,1
tile,D,3,1,2,1,1
tile,D,3,2,3,3,1
tile,D,3,3,4,6,1
";
    with_answer(sample_jobs::cholesky_4(), answer)
}

/// A task that waits for itself, and for an edge that arrives.
pub fn stall() -> Job<'static> {
    let answer = b"stalled,1,2
wait,T,0,1,2
";
    with_answer(sample_jobs::stall(), answer)
}

/// Four tasks without edges; two of them trap.
pub fn traps() -> Job<'static> {
    let answer = b"trapped,2
trap,T,2,divide
trap,T,3,index
";
    with_answer(sample_jobs::traps(), answer)
}
