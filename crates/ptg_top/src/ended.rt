//! How a run of the program ended.

ghost use Rattle.std.specs.Prelude.{◌≡◌, None};

use crate::status::Status;
use dep_table::Receipt;

/// How a run of the program ended.
#[derive(Drop)]
pub struct Ended {
    /// Its status.
    pub status: Status,
    /// The receipt of the table that ran its job, if a table ran one and its answer was printed.
    pub receipt: Option<Receipt>,
}

impl Ended {
    // An end with this status and no receipt.
    pub(crate) fn without_receipt(status: Status) -> Ended
        ensures status { result.status ≡ status }
        ensures receipt { result.receipt ≡ None }
    {
        Ended {
            status,
            receipt: None,
        }
    }
}
