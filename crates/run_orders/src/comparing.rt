//! Whether two answers are the same.

use coll_data::Coll;
use flow_meaning::{Outcome, TrapRow, WaitRow};
use ptg_base::Tile;

// Whether these are the same tiles.
fn same_tiles(a: &[Tile], b: &[Tile]) -> bool {
    if a.len() != b.len() {
        return false;
    }
    for (x, y) in a.iter().zip(b) {
        if x.as_slice() != y.as_slice() {
            return false;
        }
    }
    true
}

// Whether these collections have the same tiles.
fn same_colls(a: &[Coll], b: &[Coll]) -> bool {
    if a.len() != b.len() {
        return false;
    }
    for (x, y) in a.iter().zip(b) {
        if !same_tiles(x.tiles.as_slice(), y.tiles.as_slice()) {
            return false;
        }
    }
    true
}

// Whether these are the same rows of traps.
fn same_traps(a: &[TrapRow], b: &[TrapRow]) -> bool {
    if a.len() != b.len() {
        return false;
    }
    for (x, y) in a.iter().zip(b) {
        if x.task != y.task || x.cause != y.cause {
            return false;
        }
    }
    true
}

// Whether these are the same rows of waiting tasks.
fn same_waits(a: &[WaitRow], b: &[WaitRow]) -> bool {
    if a.len() != b.len() {
        return false;
    }
    for (x, y) in a.iter().zip(b) {
        if x.task != y.task || x.arrived != y.arrived || x.goal != y.goal {
            return false;
        }
    }
    true
}

/// Whether two answers are the same.
pub fn same(a: &Outcome, b: &Outcome) -> bool {
    match (a, b) {
        (Outcome::Complete(n, x), Outcome::Complete(m, y)) => {
            n == m && same_colls(x.colls(), y.colls())
        }
        (Outcome::Trapped(x), Outcome::Trapped(y)) => same_traps(x.as_slice(), y.as_slice()),
        (Outcome::Stalled(n, k, x), Outcome::Stalled(m, l, y)) => {
            n == m && k == l && same_waits(x.as_slice(), y.as_slice())
        }
        _ => false,
    }
}
