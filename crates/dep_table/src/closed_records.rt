//! The records of the passes of a closed table, which only contracts and proofs see.

ghost use Rattle.std.specs.Prelude.{◌≡◌, List, [], ◌∷◌, ◌++◌, map};
ghost use Rattle.std.specs.Borrow.{ftrue};
ghost use Rattle.work_board.specs.declared.record.PassRecord.{PassRecord};
ghost use Rattle.dep_table.specs.Views.{shown};

use crate::pass::Pass;
use std::marker::Model;

// The records of passes. It takes no memory: only contracts and proofs see it.
#[derive(Drop)]
pub struct ClosedRecords {
    pub ghost records: { List PassRecord },
}

impl Model for ClosedRecords {
    ghost also_owns = { λ _. ftrue };
}

impl ClosedRecords {
    // No records.
    fn new() -> ClosedRecords
        ensures { result.records ≡ [] }
    {
        ClosedRecords {}
    }

    // The earlier records, followed by that of this pass.
    fn with(_before: &ClosedRecords, _pass: &Pass) -> ClosedRecords
        ensures { result.records ≡ _before.now.records ++ shown _pass.now ∷ [] }
    {
        ClosedRecords {}
    }

    // The records of these passes.
    pub(crate) fn of(passes: &[Pass]) -> ClosedRecords
        ensures { result.records ≡ map shown passes.now }
    {
        let mut records = ClosedRecords::new();
        for pass in passes {
            records = ClosedRecords::with(&records, pass);
        }
        records
    }
}
