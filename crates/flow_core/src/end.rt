//! How a task ended, without the tiles that it left.

ghost use Rattle.std.specs.Prelude.{◌≡◌};
ghost use Rattle.std.specs.Borrow.{ftrue};
ghost use Rattle.std.specs.Result.{result_err};
ghost use Rattle.flow_meaning.specs.Ending as ending;
ghost use Rattle.flow_meaning.specs.Ending.{Ended};

use crate::body::Ran;
use std::marker::Model;
use term_core::Trap;

// How a task ended, for proofs alone. It takes no memory.
#[derive(Drop)]
pub struct SeenEnd {
    pub ghost end: { Ended },
}

impl Model for SeenEnd {
    ghost also_owns = { λ _. ftrue };
}

impl SeenEnd {
    // How the body of the task ended.
    fn of(_ran: &Ran) -> SeenEnd
        ensures { result.end ≡ _ran.now.end }
    {
        SeenEnd {}
    }
}

// How a task ended. Contracts see the tiles that it left too, which the run keeps only until they were sent.
#[derive(Drop)]
pub struct End {
    trap: Option<Trap>,
    seen: SeenEnd,
}

impl Model for End {
    ghost use Rattle.std.specs.Prelude.{◌≡◌};
    ghost use Rattle.flow_meaning.specs.Ending.{Ended};
    ghost use Rattle.std.specs.Result.{result_err};

    ghost Value = { Ended };

    ghost view = { λ e. e.seen.end };

    ghost invariant = { λ e. e.trap ≡ result_err e.seen.end };
}

// Why a body trapped, if it did.
fn trap_of(ran: &Ran) -> Option<Trap>
    ensures { result ≡ result_err ran.now.end }
{
    match &ran.end {
        Ok(_) => None,
        Err(cause) => Some(*cause),
    }
}

impl End {
    // How the body of the task ended.
    pub(crate) fn of(ran: &Ran) -> End
        ensures { result ≡ ran.now.end }
    {
        End {
            trap: trap_of(ran),
            seen: SeenEnd::of(ran),
        }
    }

    // Why the task trapped, if it did.
    pub(crate) fn trap(&self) -> Option<Trap>
        ensures { result ≡ result_err self.now }
    {
        self.trap
    }
}

// Whether a task has ended without a trap.
pub(crate) fn has_outputs(end: &Option<End>) -> bool
    ensures { result ≡ ending.has_outputs end.now }
{
    match end {
        Some(end) => end.trap().is_none(),
        None => false,
    }
}
