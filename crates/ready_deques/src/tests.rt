//! Deques on one thread and on several.

ghost use Rattle.std.specs.Prelude.{[], ◌∷◌, IfOk};
ghost use Rattle.ready_deques.specs.Hands.{AreTheOthers, SameWorker};

use super::*;
use ptg_base::TaskId;
use std::alloc::Global;
use std::sync::Wait;
use std::test::Fail;
use std::thread;
use std::thread::Threads;

// The task of this number: class 3 with one parameter.
fn task(k: i64) -> TaskId {
    TaskId::new(3, &[k])
}

// The number of such a task.
fn number_of(id: &TaskId) -> Option<i64> {
    id.params().first().copied()
}

// What these hands pop.
fn pop(hands: &mut Hands) -> Option<i64>
    ensures { SameWorker hands.old hands.new }
{
    hands.pop().and_then(|id| number_of(&id))
}

// What these hands steal from another worker; None if that is their own worker or there is no such worker.
fn steal<R: Threads + Wait + Sync>(rt: &R, hands: &mut Hands, from: u32) -> Option<i64>
    ensures { SameWorker hands.old hands.new }
{
    if from >= hands.workers() || from == hands.number() {
        return None;
    }
    match hands.steal(rt, from) {
        Stolen::Task(id) => number_of(&id),
        Stolen::Empty => None,
    }
}

// Whether the team has this many workers, numbered from 0, and each returns this number as the number of workers.
fn are_numbered(team: &[Hands], workers: u32) -> bool {
    for (k, hands) in team.iter().enumerate() {
        if hands.number() as usize != k || hands.workers() != workers {
            return false;
        }
    }
    team.len() == workers as usize
}

#[test]
fn the_workers_of_a_team_are_numbered(rt: HostRuntime) -> Result<(), Fail> {
    let team = make(rt.alloc(), 3)?;
    assert!(rt; are_numbered(team.as_slice(), 3));
    Ok(())
}

// The hands of workers 1 and 2 of three.
fn last_two(alloc: Global) -> Result<(Hands, Hands), Fail> {
    let mut team = make(alloc, 3)?;
    let (Some(last), Some(middle)) = (team.pop(), team.pop()) else {
        return Err("fewer than two".into());
    };
    Ok((middle, last))
}

// Whether all of this many tasks were pushed.
fn push_all(hands: &mut Hands, count: i64) -> bool {
    let mut all = true;
    for k in 0..count {
        all &= hands.push(task(k)).is_ok();
    }
    all
}

// Whether the tasks with the numbers in `from..to` were popped, the last one first.
fn pops_down(hands: &mut Hands, from: i64, to: i64) -> bool {
    let mut all = true;
    for k in (from..to).rev() {
        all &= pop(hands) == Some(k);
    }
    all
}

// Whether neither the owner, worker 1, nor the thief finds a task.
fn find_none<R: Threads + Wait + Sync>(rt: &R, owner: &mut Hands, thief: &mut Hands) -> bool {
    pop(owner).is_none() && steal(rt, thief, 1).is_none()
}

// Whether the owner, worker 1, pops the newest of 20 tasks and the thief steals the oldest, and the thief steals none
// from worker 0, which has none.
fn take_from_both_ends<R: Threads + Wait + Sync>(
    rt: &R,
    owner: &mut Hands,
    thief: &mut Hands,
) -> bool {
    if !push_all(owner, 20) || !pops_down(owner, 18, 20) {
        return false;
    }
    let stolen = (steal(rt, thief, 1), steal(rt, thief, 1));
    stolen == (Some(0), Some(1)) && steal(rt, thief, 0).is_none() && pops_down(owner, 2, 18)
}

#[test]
fn a_worker_pops_its_newest_and_another_steals_its_oldest(rt: HostRuntime) -> Result<(), Fail> {
    let (mut owner, mut thief) = last_two(rt.alloc())?;
    assert!(rt; find_none(&rt, &mut owner, &mut thief));
    assert!(rt; take_from_both_ends(&rt, &mut owner, &mut thief));
    assert!(rt; find_none(&rt, &mut owner, &mut thief));
    Ok(())
}

// One worker's hands, and how often it took each task.
#[derive(Drop)]
struct Seat {
    hands: Hands,
    taken: Vec<u32>,
}

impl Seat {
    // Notes that a task was taken.
    fn note(&mut self, taken: Option<i64>) {
        let Some(k) = taken else {
            return;
        };
        if let Some(count) = usize::try_from(k).ok().and_then(|k| self.taken.get_mut(k)) {
            *count = count.wrapping_add(1);
        }
    }
}

// The number of tasks that worker 0 pushes.
const TASKS: i64 = 3000;

// Worker 0 pushes the tasks and pops every third time; an id that a push returns counts as taken. The others try to
// steal from worker 0, and then from worker 1, which has nothing.
fn take_part<R: Threads + Wait + Sync>(rt: &R, seat: &mut Seat) {
    let first = seat.hands.number() == 0;
    for k in 0..TASKS {
        if first {
            if let Err(id) = seat.hands.push(task(k)) {
                seat.note(number_of(&id));
            }
            if k % 3 == 2 {
                let newest = pop(&mut seat.hands);
                seat.note(newest);
            }
        } else {
            let oldest = steal(rt, &mut seat.hands, 0);
            seat.note(oldest);
            let none = steal(rt, &mut seat.hands, 1);
            seat.note(none);
        }
    }
}

// The hands of four workers, each with a count for each task.
fn four_seats(alloc: Global) -> Result<Vec<Seat>, Fail> {
    let mut seats = Vec::new(alloc);
    for hands in make(alloc, 4)? {
        let taken = vec![in alloc; 0u32; TASKS as usize]?;
        seats.push(Seat { hands, taken })?;
    }
    Ok(seats)
}

// Takes what is left of a worker's own tasks, and returns whether its deque is empty then.
fn drain(seat: &mut Seat) -> bool {
    for _ in 0..TASKS {
        let left = pop(&mut seat.hands);
        seat.note(left);
    }
    pop(&mut seat.hands).is_none()
}

// Whether all together took this task once.
fn is_taken_once(seats: &[Seat], k: usize) -> bool {
    let mut all = 0u32;
    for seat in seats {
        all = all.wrapping_add(seat.taken.get(k).copied().unwrap_or(0));
    }
    all == 1
}

// Whether each task was taken once.
fn are_taken_once(seats: &[Seat]) -> bool {
    let mut each = true;
    for k in 0..TASKS as usize {
        each &= is_taken_once(seats, k);
    }
    each
}

#[test]
fn each_id_is_taken_once_by_four_threads(rt: HostRuntime) -> Result<(), Fail> {
    let mut seats = four_seats(rt.alloc())?;
    thread::for_each_mut(
        &rt,
        seats.as_mut_slice(),
        4,
        &|_, seat| take_part(&rt, seat),
    );
    let Some(first) = seats.first_mut() else {
        return Err("no worker".into());
    };
    assert!(rt; drain(first));
    assert!(rt; are_taken_once(seats.as_slice()));
    Ok(())
}

// The hands of worker 1 of two, and those of worker 0.
fn pair(alloc: Global) -> Result<(Hands, Hands), Fail>
    ensures { IfOk result (λ pair. AreTheOthers pair.0 (pair.1 ∷ [])) }
{
    let mut team = make(alloc, 2)?;
    let (Some(last), Some(first)) = (team.pop(), team.pop()) else {
        return Err("fewer than two".into());
    };
    Ok((last, first))
}

#[test]
fn the_hands_of_a_team_are_settled(rt: HostRuntime) -> Result<(), Fail> {
    let (mut owner, mut other) = pair(rt.alloc())?;
    let pushed = owner.push(task(0)).is_ok();
    let both_pushed = owner.push(task(1)).is_ok() && pushed;
    let all_pushed = owner.push(task(2)).is_ok() && both_pushed;
    let stolen = steal(&rt, &mut other, 1);
    let popped = pop(&mut owner);
    owner.settle(vec![in rt.alloc(); other]?);
    assert!(rt; all_pushed);
    assert_eq!(rt; (stolen, popped), (Some(0), Some(2)));
    Ok(())
}
