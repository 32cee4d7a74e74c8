//! One shard: ready tasks and edges are added, tasks are taken and end or trap, and tiles are written back.
ghost use Rattle.std.specs.Prelude.{◌≡◌, ◌<◌, length, OnOk, IsTrue};
ghost use Rattle.ptg_base.specs.Limits.{most_tasks};
ghost use Rattle.dep_shard.specs.Content.{IsTileOf};
ghost use Rattle.ptg_measure.specs.Tasks.{task_of, HasNoneFrom, WaitFrom};

use crate::count::{Count, Counts};
use crate::tasks::{priority, task};
use dep_shard::{Arrived, Shard};
use ptg_base::{Edge, MOST_TASKS, OutOfMemory, Place, TaskId, Tile, WriteBack};
use std::alloc::Global;
use term_core::Trap;

// The number of numbers in a tile.
const NUMBERS: u32 = 4;

/// What is measured of a shard.
#[derive(Clone, Copy, Debug, PartialEq, Eq)]
pub enum ShardCase {
    /// This many ready tasks added.
    Ready,
    /// The same, and then all of them taken, always the best one first.
    Best,
    /// The same, and then all of them taken in order of their numbers.
    ByTask,
    /// The first of two edges into each of this many tasks.
    FirstEdges,
    /// Both edges into each of this many tasks.
    LastEdges,
    /// The same in a shard with spares for all of it.
    Reserved,
    /// Both edges into each of this many tasks, and then all tasks taken, always the best one first.
    Fired,
    /// This many ready tasks that are taken and trap.
    Trapped,
    /// This many tiles written back.
    Written,
}

impl ShardCase {
    /// The case of this name.
    pub fn of(name: &str) -> Option<ShardCase> {
        match name {
            "ready" => Some(ShardCase::Ready),
            "best" => Some(ShardCase::Best),
            "by_task" => Some(ShardCase::ByTask),
            "first_edges" => Some(ShardCase::FirstEdges),
            "last_edges" => Some(ShardCase::LastEdges),
            "reserved" => Some(ShardCase::Reserved),
            "fired" => Some(ShardCase::Fired),
            "trapped" => Some(ShardCase::Trapped),
            "written" => Some(ShardCase::Written),
            _ => None,
        }
    }
}

/// Measures a case at this size, in a new shard.
pub fn in_a_shard(alloc: Global, case: ShardCase, size: u32) -> Result<Counts, OutOfMemory> {
    let tile = Tile::zeros(alloc, NUMBERS)?;
    let mut shard = Shard::new(alloc, &[NUMBERS])?;
    counts(case, size, &mut shard, &tile)
}

// What a case counts in a new shard. The cases borrow the shard, so that one function alone drops it.
fn counts(case: ShardCase, size: u32, shard: &mut Shard, tile: &Tile) -> Result<Counts, OutOfMemory>
    requires new { HasNoneFrom 0 shard.old }
    requires tile { IsTileOf shard.old.elems 0 tile.now }
    requires types { length shard.old.elems ≡ 1 }
{
    match case {
        ShardCase::Ready => ready(size, shard),
        ShardCase::Best => best(size, shard),
        ShardCase::ByTask => by_task(size, shard),
        ShardCase::FirstEdges => first_edges(size, shard, tile),
        ShardCase::LastEdges => last_edges(size, shard, tile),
        ShardCase::Reserved => reserved(size, shard, tile),
        ShardCase::Fired => fired(size, shard, tile),
        ShardCase::Trapped => trapped(size, shard),
        ShardCase::Written => written(size, shard, tile),
    }
}

// Adds ready tasks.
fn ready(size: u32, shard: &mut Shard) -> Result<Counts, OutOfMemory>
    requires { HasNoneFrom 0 shard.old }
{
    add_ready(shard, size)?;
    Ok(Counts::one(entries(shard)))
}

// Adds ready tasks, and then takes them all, always the best one first.
fn best(size: u32, shard: &mut Shard) -> Result<Counts, OutOfMemory>
    requires { HasNoneFrom 0 shard.old }
{
    add_ready(shard, size)?;
    let taken = take_best(shard, size);
    Ok(Counts::two(Count::of("taken", taken), entries(shard)))
}

// Adds ready tasks, and then takes them in order of their numbers.
fn by_task(size: u32, shard: &mut Shard) -> Result<Counts, OutOfMemory>
    requires { HasNoneFrom 0 shard.old }
{
    add_ready(shard, size)?;
    let taken = take_by_task(shard, size);
    Ok(Counts::two(Count::of("taken", taken), entries(shard)))
}

// Sends the first of two edges into each task.
fn first_edges(size: u32, shard: &mut Shard, tile: &Tile) -> Result<Counts, OutOfMemory>
    requires new { HasNoneFrom 0 shard.old }
    requires tile { IsTileOf shard.old.elems 0 tile.now }
{
    send_first(shard, size, tile)?;
    Ok(Counts::one(entries(shard)))
}

// Sends both edges into each task.
fn last_edges(size: u32, shard: &mut Shard, tile: &Tile) -> Result<Counts, OutOfMemory>
    requires new { HasNoneFrom 0 shard.old }
    requires tile { IsTileOf shard.old.elems 0 tile.now }
{
    let fired = send_both(shard, size, tile)?;
    Ok(Counts::two(Count::of("fired", fired), entries(shard)))
}

// Sends both edges into each task, with spares for all of it.
fn reserved(size: u32, shard: &mut Shard, tile: &Tile) -> Result<Counts, OutOfMemory>
    requires new { HasNoneFrom 0 shard.old }
    requires tile { IsTileOf shard.old.elems 0 tile.now }
    requires types { length shard.old.elems ≡ 1 }
{
    shard.reserve(u64::from(size), &[2 * u64::from(size)], 0, 0)?;
    let fired = send_both(shard, size, tile)?;
    Ok(Counts::two(Count::of("fired", fired), entries(shard)))
}

// Sends both edges into each task, and then takes all tasks, always the best one first.
fn fired(size: u32, shard: &mut Shard, tile: &Tile) -> Result<Counts, OutOfMemory>
    requires new { HasNoneFrom 0 shard.old }
    requires tile { IsTileOf shard.old.elems 0 tile.now }
{
    let fired = send_both(shard, size, tile)?;
    let taken = take_best(shard, size);
    Ok(Counts::three(
        Count::of("fired", fired),
        Count::of("taken", taken),
        entries(shard),
    ))
}

// Adds ready tasks, and lets each of them trap.
fn trapped(size: u32, shard: &mut Shard) -> Result<Counts, OutOfMemory>
    requires new { HasNoneFrom 0 shard.old }
    requires types { length shard.old.elems ≡ 1 }
{
    shard.reserve(u64::from(size), &[0], 0, u64::from(size))?;
    add_ready(shard, size)?;
    trap_by_task(shard, size)?;
    Ok(Counts::two(
        Count::of("trapped", count_trapped(shard, size)),
        Count::of("ended", shard.ended()),
    ))
}

// Writes a tile back for each task.
fn written(size: u32, shard: &mut Shard, tile: &Tile) -> Result<Counts, OutOfMemory>
    requires tile { IsTileOf shard.old.elems 0 tile.now }
    requires types { length shard.old.elems ≡ 1 }
{
    shard.reserve(0, &[u64::from(size)], u64::from(size), 0)?;
    write_back(shard, size, tile)?;
    Ok(Counts::one(Count::of("written", count_written(shard, size))))
}

// The number of entries of a shard.
fn entries(shard: &Shard) -> Count {
    Count::of("entries", shard.len() as u64)
}

// Adds this many ready tasks.
fn add_ready(shard: &mut Shard, size: u32) -> Result<(), OutOfMemory>
    requires { HasNoneFrom 0 shard.old }
{
    for number in 0..size {
        shard.add_ready(&task(number), priority(number))?;
    }
    Ok(())
}

// An edge into a flow of the task of this number.
fn edge_to(number: u32, flow: u8) -> Edge
    ensures to { result.to ≡ task_of number }
    ensures flow { result.in_flow ≡ flow }
{
    Edge {
        from: task(number / 2),
        out_flow: 0,
        to: task(number),
        in_flow: flow,
    }
}

// Sends the first of two edges into each of this many tasks.
fn send_first(shard: &mut Shard, size: u32, tile: &Tile) -> Result<(), OutOfMemory>
    requires new { HasNoneFrom 0 shard.old }
    requires tile { IsTileOf shard.old.elems 0 tile.now }
    ensures waits { OnOk result (WaitFrom 0 size shard.new) }
    ensures elems { shard.new.elems ≡ shard.old.elems }
{
    for number in 0..size {
        let _waits = shard.arrive(&edge_to(number, 0), 2, priority(number), 0, Some(tile))?;
    }
    Ok(())
}

// Sends the second of two edges into each of this many tasks. Returns how many fired.
fn send_last(shard: &mut Shard, size: u32, tile: &Tile) -> Result<u64, OutOfMemory>
    requires waits { WaitFrom 0 size shard.old }
    requires tile { IsTileOf shard.old.elems 0 tile.now }
{
    let mut fired: u64 = 0;
    for number in 0..size {
        let arrived = shard.arrive(&edge_to(number, 1), 2, priority(number), 0, Some(tile))?;
        if arrived == Arrived::Fired {
            fired = fired.wrapping_add(1);
        }
    }
    Ok(fired)
}

// Sends both of two edges into each of this many tasks. Returns how many fired.
fn send_both(shard: &mut Shard, size: u32, tile: &Tile) -> Result<u64, OutOfMemory>
    requires new { HasNoneFrom 0 shard.old }
    requires tile { IsTileOf shard.old.elems 0 tile.now }
{
    send_first(shard, size, tile)?;
    send_last(shard, size, tile)
}

// Takes a ready task, unless as many tasks run or have ended as a job may have. Returns whether it was taken.
fn take(shard: &mut Shard, task: &TaskId) -> bool
    ensures running { IsTrue result → 0 < shard.new.running }
    ensures ended { IsTrue result → shard.new.ended < most_tasks }
{
    if shard.running() >= MOST_TASKS || shard.ended() >= MOST_TASKS {
        return false;
    }
    shard.take_ready(task).is_some()
}

// Takes a ready task and ends it. Returns whether it was taken.
fn run(shard: &mut Shard, task: &TaskId) -> bool {
    if !take(shard, task) {
        return false;
    }
    shard.end();
    true
}

// Takes this many tasks, always the best ready one. Returns how many were taken.
fn take_best(shard: &mut Shard, size: u32) -> u64 {
    let mut taken: u64 = 0;
    for _ in 0..size {
        let Some(best) = shard.best_ready() else {
            return taken;
        };
        if run(shard, &best) {
            taken = taken.wrapping_add(1);
        }
    }
    taken
}

// Takes this many tasks in order of their numbers. Returns how many were taken.
fn take_by_task(shard: &mut Shard, size: u32) -> u64 {
    let mut taken: u64 = 0;
    for number in 0..size {
        if run(shard, &task(number)) {
            taken = taken.wrapping_add(1);
        }
    }
    taken
}

// Takes a ready task and lets it trap.
fn trap(shard: &mut Shard, task: &TaskId) -> Result<(), OutOfMemory> {
    if !take(shard, task) {
        return Ok(());
    }
    shard.trap(task, Trap::Divide)
}

// Lets this many tasks trap.
fn trap_by_task(shard: &mut Shard, size: u32) -> Result<(), OutOfMemory> {
    for number in 0..size {
        trap(shard, &task(number))?;
    }
    Ok(())
}

// How many of the first `size` rows of trapped tasks there are.
fn count_trapped(shard: &Shard, size: u32) -> u64 {
    let mut count: u64 = 0;
    for number in 0..size {
        if shard.trapped(number as usize).is_some() {
            count = count.wrapping_add(1);
        }
    }
    count
}

// Writes a tile back for each of this many tasks.
fn write_back(shard: &mut Shard, size: u32, tile: &Tile) -> Result<(), OutOfMemory>
    requires tile { IsTileOf shard.old.elems 0 tile.now }
{
    for number in 0..size {
        let write = WriteBack {
            from: task(number),
            flow: 0,
            place: Place {
                coll: 0,
                i: i64::from(number),
                j: 0,
            },
        };
        shard.write(&write, 0, tile)?;
    }
    Ok(())
}

// How many of the first `size` write-backs there are.
fn count_written(shard: &Shard, size: u32) -> u64 {
    let mut count: u64 = 0;
    for number in 0..size {
        if shard.written(number as usize).is_some() {
            count = count.wrapping_add(1);
        }
    }
    count
}
