//! A gate that holds the first body until the second has come.

use ptg_base::TaskId;
use std::sync::Wait;
use std::sync::atomic::{AtomicBool, AtomicU64, Ordering};
use std::thread::{Threads, yield_now};
use worker_core::Gate;

// After this many looks the gate gives up and lets the body run alone.
const LOOKS: u64 = 100_000_000;

// Once in this many looks it lets other threads run.
const PATIENCE: u64 = 1_000;

/// Holds the first body until the second has come, or until it gives up.
#[derive(Drop)]
pub struct Meeting {
    come: AtomicU64,
    gave_up: AtomicBool,
}

impl Meeting {
    /// A gate before any body has come.
    pub fn new() -> Meeting {
        Meeting {
            come: AtomicU64::new(0),
            gave_up: AtomicBool::new(false),
        }
    }

    /// How the meeting ended.
    pub fn end(&self) -> &'static str {
        if self.gave_up.load(Ordering::SeqCst) {
            "gave up"
        } else if self.come.load(Ordering::SeqCst) < 2 {
            "was not asked twice"
        } else {
            "opened"
        }
    }
}

impl Gate for Meeting {
    fn before_body<R: Threads + Wait + Sync>(&self, _rt: &R, _worker: u32, _task: &TaskId) {
        self.come.fetch_add(1, Ordering::SeqCst);
        for look in 0..LOOKS {
            if self.come.load(Ordering::SeqCst) >= 2 {
                return;
            }
            if look % PATIENCE == 0 {
                yield_now();
            }
        }
        self.gave_up.store(true, Ordering::SeqCst);
    }
}
