//! Counts of what the calls of a table's passes returned.

use std::fmt;
use work_board::Sent;

/// The result of a claim by a pass that looks on.
#[derive(Clone, Copy)]
pub enum Reply {
    /// The task was claimed.
    Got,
    /// The task had no ready entry.
    Gone,
    /// Another pass held the turn.
    Busy,
    /// No claim was tried: the pass ran a task, or did not get the turn that it was to hold.
    NotAsked,
}

/// How often each result came.
#[derive(Clone, Copy)]
pub struct Seen {
    /// Claims of the running task, which returned `Gone`.
    gone: u64,
    /// Claims at a turn that another pass held, which returned `Busy`.
    busy: u64,
    /// Looks for quiet while a task ran, which did not see quiet.
    restless: u64,
    /// Edges whose target still waited, edges that fired their target, and write-backs.
    waits: u64,
    fired: u64,
    kept: u64,
    /// Other results.
    other: u64,
}

impl Seen {
    /// All counts are 0.
    pub fn nothing() -> Seen {
        Seen {
            gone: 0,
            busy: 0,
            restless: 0,
            waits: 0,
            fired: 0,
            kept: 0,
            other: 0,
        }
    }
}

impl Seen {
    /// Counts the result of a claim of the running task.
    pub fn note_claim(&mut self, reply: Reply) {
        match reply {
            Reply::Gone => self.gone = self.gone.saturating_add(1),
            _ => self.other = self.other.saturating_add(1),
        }
    }

    /// Counts the result of a claim at a turn that another pass held.
    pub fn note_at_turn(&mut self, reply: Reply) {
        match reply {
            Reply::Busy => self.busy = self.busy.saturating_add(1),
            _ => self.other = self.other.saturating_add(1),
        }
    }

    /// Counts a look for quiet while a task ran.
    pub fn note_look(&mut self, quiet: bool) {
        if quiet {
            self.other = self.other.saturating_add(1);
        } else {
            self.restless = self.restless.saturating_add(1);
        }
    }

    /// Counts the result of a send.
    pub fn note_sent(&mut self, sent: Sent) {
        match sent {
            Sent::Waits => self.waits = self.waits.saturating_add(1),
            Sent::Fired => self.fired = self.fired.saturating_add(1),
            Sent::Kept => self.kept = self.kept.saturating_add(1),
            Sent::Busy => self.other = self.other.saturating_add(1),
        }
    }
}

impl fmt::Display for Seen {
    fn fmt<W: fmt::Write>(&self, f: &mut fmt::Formatter<W>) -> fmt::Result {
        write!(
            f,
            "gone {}, busy {}, restless {}, ",
            self.gone, self.busy, self.restless
        )?;
        write!(
            f,
            "waits {}, fired {}, kept {}, ",
            self.waits, self.fired, self.kept
        )?;
        write!(f, "other {}", self.other)
    }
}
