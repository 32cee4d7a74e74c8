//! What was wanted of a row, and what came.

use crate::worked_row::Printed;

/// What was wanted of a row and what came.
#[derive(Drop)]
pub struct Tried {
    pub wanted: Printed,
    pub came: Printed,
    /// How many bytes the file had, if the row is tried with prefixes of it.
    pub length: Option<usize>,
}

impl Tried {
    /// Returns this, unless status and text are as wanted.
    pub fn if_other(self) -> Option<Tried> {
        if self.wanted.status == self.came.status
            && self.wanted.text.as_slice() == self.came.text.as_slice()
        {
            return None;
        }
        Some(self)
    }
}
