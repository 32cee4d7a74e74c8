//! Checks of what may cross threads: a table is shared by all workers, and each worker is handed a pass.

use crate::pass::Pass;
use crate::table::DepTable;

// Compiles only if T may be shared between threads.
fn needs_sync<T: Sync>(x: &T) {
    let _x = x;
}

// Compiles only if T may be handed to another thread.
fn needs_send<T: Send>(x: &T) {
    let _x = x;
}

/// A table may be shared between threads: this compiles.
pub fn shares_table(table: &DepTable) {
    needs_sync(table);
}

/// A pass may be sent to another thread: this compiles.
pub fn sends_pass(pass: &Pass) {
    needs_send(pass);
}
