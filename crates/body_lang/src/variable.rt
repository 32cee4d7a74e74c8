//! The variables of a body.

use ptg_base::Text;

/// A variable that a body declares.
pub struct Variable {
    pub name: Text,
    /// The number of its slot.
    pub slot: u16,
    pub is_loop_variable: bool,
}

impl Drop for Variable {
    fn drop(self) {
        let Variable {
            name: _name,
            slot: _slot,
            is_loop_variable: _is_loop_variable,
        } = self;
    }
}
