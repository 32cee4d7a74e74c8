//! The jobs that are run.

use flow_meaning::Outcome;
use ptg_base::Place;
use sample_jobs::{
    Job, broadcast, chain, cholesky_4, ring, stall_apart, traps, traps_and_ring, traps_apart,
};

/// The jobs that are driven. With more ranks than one they send messages.
pub fn driven_jobs() -> [Job; 4] {
    [
        chain(),
        cholesky_4().named("cholesky"),
        stall_apart().named("stall"),
        traps_apart().named("traps"),
    ]
}

/// The jobs whose whole answers are printed: one that is complete, two that stall, and two with traps.
pub fn answered_jobs() -> [Job; 5] {
    [
        broadcast(),
        ring(),
        stall_apart().named("stall"),
        traps().named("two traps"),
        traps_and_ring(),
    ]
}

/// The numbers of the three places of the broadcast, if this is the answer of a run all of whose four tasks ran.
pub fn numbers(outcome: &Outcome) -> Option<[i64; 3]> {
    let Outcome::Complete(4, given) = outcome else {
        return None;
    };
    let mut numbers = [0; 3];
    for i in 0..3 {
        let place = Place {
            coll: 0,
            i: i as i64,
            j: 0,
        };
        numbers[i] = *given.tile(&place)?.as_slice().first()?;
    }
    Some(numbers)
}
