//! A gate that notes the tasks that it lets through.

use crate::counting::number_of;
use ptg_base::{OutOfMemory, TaskId};
use std::alloc::{AllocError, Global};
use std::fmt::Write;
use std::sync::Wait;
use std::sync::atomic::{AtomicU64, Ordering};
use std::thread::Threads;
use worker_core::Gate;

// It notes the first tasks, this many, and only counts the later ones.
const NOTES: usize = 64;

// The classes of the Cholesky job in their order, each with its number of parameters.
const CLASSES: [(&str, u64); 4] = [("potrf", 1), ("trsm", 2), ("herk", 2), ("gemm", 3)];

/// Notes the numbers of the tasks of the Cholesky job in the order in which they come.
#[derive(Drop)]
pub struct Noting {
    come: AtomicU64,
    numbers: Vec<AtomicU64>,
}

impl Noting {
    /// A gate before any task has come.
    pub fn new(alloc: Global) -> Result<Noting, OutOfMemory> {
        let mut numbers = Vec::new(alloc);
        for _ in 0..NOTES {
            numbers.push(AtomicU64::new(0))?;
        }
        Ok(Noting {
            come: AtomicU64::new(0),
            numbers,
        })
    }

    /// The number of tasks that have come.
    pub fn come(&self) -> u64 {
        self.come.load(Ordering::SeqCst)
    }

    /// What `trace` prints of a run in which the tasks were claimed in the order in which they came.
    pub fn trace(&self, alloc: Global) -> Result<String, AllocError> {
        let come = self.come();
        let mut text = format!(in alloc; "trace,{come}\n")?;
        for number in self.numbers.iter().take(come as usize) {
            push_row(&mut text, number.load(Ordering::SeqCst))?;
        }
        Ok(text)
    }
}

// Adds the row of the task with this number: its class, and as many digits as its class has parameters.
fn push_row(text: &mut String, number: u64) -> Result<(), AllocError> {
    let (class, params) = CLASSES[(number / 64 % 4) as usize];
    write!(text, "ran,{class}")?;
    for digit in [number / 16 % 4, number / 4 % 4, number % 4]
        .iter()
        .take(params as usize)
    {
        write!(text, ",{digit}")?;
    }
    text.push('\n')
}

impl Gate for Noting {
    fn before_body<R: Threads + Wait + Sync>(&self, _rt: &R, _worker: u32, task: &TaskId) {
        let at = self.come.fetch_add(1, Ordering::SeqCst);
        if let Some(note) = self.numbers.get(at as usize) {
            note.store(number_of(task) as u64, Ordering::SeqCst);
        }
    }
}
