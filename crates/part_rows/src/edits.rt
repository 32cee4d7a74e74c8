//! Lists that differ from another in one entry.

use ptg_base::{OutOfMemory, TaskId};
use std::alloc::Global;

/// What is done to an entry.
#[derive(Clone, Copy, PartialEq, Eq)]
pub enum Edit {
    /// Another task takes its place.
    Changed,
    Dropped,
    Doubled,
    /// It changes places with the next one.
    Exchanged,
    /// Its level is one less.
    Lowered,
}

// A task with its first parameter one greater, if it has one or two; otherwise with its class number one greater.
fn another(t: &TaskId) -> TaskId {
    match t.params() {
        [a] => TaskId::new(t.class(), &[a.wrapping_add(1)]),
        [a, b] => TaskId::new(t.class(), &[a.wrapping_add(1), *b]),
        _ => TaskId::new(t.class().wrapping_add(1), t.params()),
    }
}

// Adds what replaces an entry.
fn push_edited(
    list: &mut Vec<(TaskId, u64)>,
    row: &(TaskId, u64),
    edit: Edit,
) -> Result<(), OutOfMemory> {
    match edit {
        Edit::Changed => list.push((another(&row.0), row.1))?,
        Edit::Dropped => {}
        Edit::Doubled => {
            list.push((row.0.copy(), row.1))?;
            list.push((row.0.copy(), row.1))?;
        }
        Edit::Exchanged => list.push((row.0.copy(), row.1))?,
        Edit::Lowered => list.push((row.0.copy(), row.1.saturating_sub(1)))?,
    }
    Ok(())
}

/// The rows with the one at an index edited, if there is something to edit.
pub fn edited(
    alloc: Global,
    rows: &[(TaskId, u64)],
    edit: Edit,
    index: usize,
) -> Result<Option<Vec<(TaskId, u64)>>, OutOfMemory> {
    let mut list = Vec::new(alloc);
    for (at, row) in rows.iter().enumerate() {
        if at != index {
            list.push((row.0.copy(), row.1))?;
        } else if edit == Edit::Lowered && row.1 == 0 {
            return Ok(None);
        } else {
            push_edited(&mut list, row, edit)?;
        }
    }
    if edit == Edit::Exchanged {
        let Some(next) = index.checked_add(1) else {
            return Ok(None);
        };
        if next >= list.len() {
            return Ok(None);
        }
        list.swap(index, next);
    }
    Ok(Some(list))
}
