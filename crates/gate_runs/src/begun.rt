//! A gate that counts the bodies that begin. It takes no memory.

use ptg_base::TaskId;
use std::sync::Wait;
use std::sync::atomic::{AtomicU64, Ordering};
use std::thread::Threads;
use worker_core::Gate;

/// Counts the bodies that have begun.
#[derive(Drop)]
pub struct Begun {
    begun: AtomicU64,
}

impl Begun {
    /// A gate before any body has begun.
    pub fn new() -> Begun {
        Begun {
            begun: AtomicU64::new(0),
        }
    }

    /// How many bodies have begun.
    pub fn bodies(&self) -> u64 {
        self.begun.load(Ordering::SeqCst)
    }
}

impl Gate for Begun {
    fn before_body<R: Threads + Wait + Sync>(&self, _rt: &R, _worker: u32, _task: &TaskId) {
        self.begun.fetch_add(1, Ordering::SeqCst);
    }
}
