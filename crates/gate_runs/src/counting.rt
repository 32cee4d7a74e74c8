//! A gate that counts the bodies of each task.

use ptg_base::{OutOfMemory, TaskId};
use std::alloc::Global;
use std::fmt;
use std::sync::Wait;
use std::sync::atomic::{AtomicU64, Ordering};
use std::thread::Threads;
use worker_core::Gate;

// Tasks of at most four classes, with at most three parameters from 0 to 3, each have a number below this.
const TASKS: usize = 256;

/// Counts the bodies of each task, and those of tasks without a number.
#[derive(Drop)]
pub struct Counting {
    bodies: Vec<AtomicU64>,
    others: AtomicU64,
}

/// How many tasks had their body run once, and how many other bodies there were.
#[derive(Clone, Copy)]
pub struct Counts {
    once: u64,
    beside: u64,
}

impl fmt::Display for Counts {
    fn fmt<W: fmt::Write>(&self, f: &mut fmt::Formatter<W>) -> fmt::Result {
        write!(f, "{} bodies once, {} more", self.once, self.beside)
    }
}

// A digit of the number of a task: its parameter if there is one from 0 to 3, else 0.
fn digit(params: &[i64], at: usize) -> usize {
    match params.get(at) {
        Some(1) => 1,
        Some(2) => 2,
        Some(3) => 3,
        _ => 0,
    }
}

/// The number of a task: its class and its digits, each below 4.
pub fn number_of(task: &TaskId) -> usize {
    let params = task.params();
    let mut number = (task.class() % 4) as usize;
    for at in 0..3 {
        number = number.wrapping_mul(4).wrapping_add(digit(params, at));
    }
    number
}

impl Counting {
    /// A gate before any body was run.
    pub fn new(alloc: Global) -> Result<Counting, OutOfMemory> {
        let mut bodies = Vec::new(alloc);
        for _ in 0..TASKS {
            bodies.push(AtomicU64::new(0))?;
        }
        Ok(Counting {
            bodies,
            others: AtomicU64::new(0),
        })
    }

    /// What was counted.
    pub fn counts(&self) -> Counts {
        let mut once: u64 = 0;
        let mut beside = self.others.load(Ordering::SeqCst);
        for count in &self.bodies {
            match count.load(Ordering::SeqCst) {
                0 => {}
                1 => once = once.saturating_add(1),
                more => beside = beside.saturating_add(more),
            }
        }
        Counts { once, beside }
    }
}

impl Gate for Counting {
    fn before_body<R: Threads + Wait + Sync>(&self, _rt: &R, _worker: u32, task: &TaskId) {
        let count = self.bodies.get(number_of(task)).unwrap_or(&self.others);
        count.fetch_add(1, Ordering::SeqCst);
    }
}
