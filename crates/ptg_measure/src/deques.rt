//! Deques of ready tasks: on one thread, and with three thieves.
ghost use Rattle.std.specs.Prelude.{◌≢◌, ◌<◌, length};

use crate::count::{Count, Counts};
use crate::tasks::task;
use ptg_base::OutOfMemory;
use ready_deques::{Hands, Stolen, make};
use std::alloc::Global;
use std::sync::Wait;
use std::sync::atomic::{AtomicU64, Ordering};
use std::thread;
use std::thread::Threads;

// The number of ids that are pushed before they are popped.
const BURST: u32 = 1000;

// The number of workers of the case in which three of them steal.
const WORKERS: u32 = 4;

/// Pushes this many ids to one deque and pops them, in bursts.
pub fn deque(alloc: Global, size: u32) -> Result<Counts, OutOfMemory> {
    let mut team = make(alloc, 1)?;
    let taken = match team.first_mut() {
        Some(hands) => push_and_pop(hands, size, BURST),
        None => 0,
    };
    Ok(Counts::one(Count::of("taken", taken)))
}

/// Pushes this many ids to one deque, and then pops them all.
pub fn deep_deque(alloc: Global, size: u32) -> Result<Counts, OutOfMemory> {
    let mut team = make(alloc, 1)?;
    let taken = match team.first_mut() {
        Some(hands) => push_and_pop(hands, size, size),
        None => 0,
    };
    Ok(Counts::one(Count::of("taken", taken)))
}

// Pushes this many ids, in bursts, and pops each burst until no id is left. Returns how many ids were popped, or
// returned by a push.
fn push_and_pop(hands: &mut Hands, size: u32, burst: u32) -> u64 {
    let mut taken: u64 = 0;
    let mut pushed: u32 = 0;
    for number in 0..size {
        if hands.push(task(number)).is_err() {
            taken = taken.wrapping_add(1);
        }
        pushed = pushed.wrapping_add(1);
        if pushed >= burst {
            taken = taken.wrapping_add(pop_all(hands, pushed));
            pushed = 0;
        }
    }
    taken.wrapping_add(pop_all(hands, pushed))
}

// Pops this many ids, or fewer if none is left. Returns how many it popped.
fn pop_all(hands: &mut Hands, most: u32) -> u64 {
    let mut taken: u64 = 0;
    for _ in 0..most {
        if hands.pop().is_none() {
            return taken;
        }
        taken = taken.wrapping_add(1);
    }
    taken
}

// One worker's hands, and how many ids it took.
#[derive(Drop)]
struct Seat {
    hands: Hands,
    taken: u64,
}

/// One worker pushes this many ids and pops them, in bursts, while three others steal from it.
pub fn thieves<R: Threads + Wait + Sync>(
    rt: &R,
    alloc: Global,
    size: u32,
) -> Result<Counts, OutOfMemory> {
    let mut seats = Vec::new(alloc);
    for hands in make(alloc, WORKERS)? {
        seats.push(Seat { hands, taken: 0 })?;
    }
    let done = AtomicU64::new(0);
    thread::for_each_mut(
        rt,
        seats.as_mut_slice(),
        WORKERS as usize,
        &|_, seat| { take_part(rt, seat, size, &done) },
    );
    let mut taken: u64 = 0;
    for seat in &seats {
        taken = taken.wrapping_add(seat.taken);
    }
    Ok(Counts::one(Count::of("taken", taken)))
}

// Worker 0 pushes and pops, and then sets `done`. The others steal from it until then.
fn take_part<R: Threads + Wait + Sync>(rt: &R, seat: &mut Seat, size: u32, done: &AtomicU64) {
    if seat.hands.number() == 0 {
        seat.taken = push_and_pop(&mut seat.hands, size, BURST);
        done.store(1, Ordering::SeqCst);
    } else if seat.hands.workers() > 0 {
        seat.taken = steal_all(rt, &mut seat.hands, done);
    }
}

// Steals from worker 0 until it is done and its deque was found empty. Returns how many ids were stolen.
fn steal_all<R: Threads + Wait + Sync>(rt: &R, hands: &mut Hands, done: &AtomicU64) -> u64
    requires { (0 < length hands.old.deques) × (0 ≢ hands.old.number) }
{
    let mut taken: u64 = 0;
    for _ in rt.forever() {
        match hands.steal(rt, 0) {
            Stolen::Task(_) => taken = taken.wrapping_add(1),
            Stolen::Empty => {
                if done.load(Ordering::SeqCst) == 1 {
                    return taken;
                }
            }
        }
    }
    unreachable!()
}
