//! How long a worker that finds nothing pauses between its looks.

use crossbeam_utils::Backoff;

// The largest number of pauses between two looks.
const MOST_PAUSES: u32 = 64;

// The number of looks that found nothing after which a worker sleeps.
const LOOKS_BEFORE_SLEEP: u32 = 12;

// How long a worker has looked in vain.
#[derive(Drop)]
pub(crate) struct Patience {
    backoff: Backoff,
    // The number of pauses next time; it doubles each time, up to the bound.
    pauses: u32,
    // How many looks have found nothing.
    looks: u32,
}

impl Patience {
    pub(crate) fn new() -> Patience {
        Patience {
            backoff: Backoff::new(),
            pauses: 1,
            looks: 0,
        }
    }

    // Whether it is time to sleep.
    pub(crate) fn is_over(&self) -> bool {
        self.looks >= LOOKS_BEFORE_SLEEP
    }

    // Pauses after a look that found nothing.
    pub(crate) fn pause(&mut self) {
        for _ in 0..self.pauses {
            self.backoff.snooze();
        }
        self.pauses = self.pauses.saturating_mul(2).min(MOST_PAUSES);
        self.looks = self.looks.saturating_add(1);
    }
}
