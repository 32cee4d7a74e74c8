//! The data of a run and its answer, which only contracts and proofs see.

ghost use Rattle.std.specs.Prelude.{◌≡◌};
ghost use Rattle.std.specs.Borrow.{ftrue};
ghost use Rattle.coll_data.specs.Data.{Data};
ghost use Rattle.flow_meaning.specs.declared.outcome.Outcome.{Outcome as OutcomeValue};

use coll_data::Given;
use flow_meaning::Outcome;
use std::marker::Model;

// The data of a run. It takes no memory: only contracts and proofs see it.
#[derive(Drop)]
pub struct RunData {
    pub ghost given: { Data },
}

impl Model for RunData {
    ghost also_owns = { λ _. ftrue };
}

impl RunData {
    // These data.
    pub(crate) fn of(_given: &Given) -> RunData
        ensures { result.given ≡ _given.now }
    {
        RunData {}
    }
}

// The answer of a run. It takes no memory: only contracts and proofs see it.
#[derive(Drop)]
pub struct RunAnswer {
    pub ghost outcome: { OutcomeValue },
}

impl Model for RunAnswer {
    ghost also_owns = { λ _. ftrue };
}

impl RunAnswer {
    // This answer.
    pub(crate) fn of(_outcome: &Outcome) -> RunAnswer
        ensures { result.outcome ≡ _outcome.now }
    {
        RunAnswer {}
    }
}
