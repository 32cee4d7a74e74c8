//! Files of rows, each row tried as soon as it is read.

use crate::call::Call;
use crate::items::{Item, items};
use crate::prefixes::wanted_of;
use crate::report::Report;
use crate::tried::Tried;
use crate::why::Why;
use crate::worked_row::{RowCall, StatusOfEach, Wanted, WorkedRow, number};
use std::alloc::Global;
use std::random::RandomSource;
use std::rt::{Env, Files};
use std::sync::Wait;
use std::thread::Threads;
use std::{env, fs, io};

// What is read so far of a file.
#[derive(Drop)]
struct Reading<'a> {
    // The items before the first row, which hold for all.
    all: WorkedRow<'a>,
    // The row that is being read. After a line of it that can't be read there is none until the next row.
    row: Option<WorkedRow<'a>>,
    // Whether no row has begun yet.
    is_head: bool,
    // How many rows have begun.
    rows: usize,
    // Whether the number of rows was read, which ends the file.
    is_counted: bool,
}

/// Tries the rows of the files that the program's arguments name. Prints a line for each that is not as wanted or can't
/// be read, and at the end whether all came out as wanted. Returns that too.
pub fn all_as_wanted<
    R: Print + Files + Env + AllocGlobal + Threads + Wait + RandomSource + Sync,
    C: Call,
>(rt: &R, call: &C) -> io::Result<bool> {
    let alloc = rt.alloc();
    let mut report = Report::new(rt, alloc);
    for word in env::args(rt)?.skip(1) {
        try_file(rt, &mut report, call, word.as_str())?;
    }
    report.end()?;
    Ok(report.others == 0)
}

// Tries the rows of a file.
fn try_file<R: Print + Files + AllocGlobal + Threads + Wait + RandomSource + Sync, C: Call>(
    rt: &R,
    report: &mut Report<'_, R>,
    call: &C,
    file: &str,
) -> io::Result<()> {
    match fs::read_to_string(rt, file) {
        Ok(text) => try_text(report, call, file, text.as_str()),
        Err(_) => report.unread(file, 0, Why("no file of text")),
    }
}

// Tries the rows of a file's text.
fn try_text<R: Print + Threads + Wait + RandomSource + Sync, C: Call>(
    report: &mut Report<'_, R>,
    call: &C,
    file: &str,
    text: &str,
) -> io::Result<()> {
    match items(report.alloc, text) {
        Ok(list) => try_items(report, call, file, list.as_slice()),
        Err((line, why)) => report.unread(file, line, why),
    }
}

// Tries the rows of a file's items.
fn try_items<'a, R: Print + Threads + Wait + RandomSource + Sync, C: Call>(
    report: &mut Report<'_, R>,
    call: &C,
    file: &str,
    list: &[Item<'a>],
) -> io::Result<()> {
    let mut reading = Reading::new(report.alloc);
    for item in list {
        reading.take(report, call, file, item)?;
    }
    reading.finish(report, call, file)?;
    if reading.is_counted {
        Ok(())
    } else {
        let last = list.last().map_or(0, |item| item.line);
        report.unread(
            file,
            last,
            Why("a file that does not end with its number of rows"),
        )
    }
}

impl<'a> Reading<'a> {
    // A reading that has taken no item.
    fn new(alloc: Global) -> Reading<'a> {
        Reading {
            all: WorkedRow::new(alloc),
            row: None,
            is_head: true,
            rows: 0,
            is_counted: false,
        }
    }

    // Takes an item: one that begins a row, or counts the rows, ends the row before it.
    fn take<R: Print + Threads + Wait + RandomSource + Sync, C: Call>(
        &mut self,
        report: &mut Report<'_, R>,
        call: &C,
        file: &str,
        item: &Item<'a>,
    ) -> io::Result<()> {
        if matches!(item.keyword, "row" | "rows") {
            self.finish(report, call, file)?;
        }
        if let Err(why) = self.add(report.alloc, item) {
            report.unread(file, item.line, why)?;
            self.row = None;
        }
        Ok(())
    }

    // Takes an item into the row that it belongs to.
    fn add(&mut self, alloc: Global, item: &Item<'a>) -> Result<(), Why> {
        if self.is_counted {
            return Err(Why("a line after the number of rows"));
        }
        match &mut self.row {
            _ if item.keyword == "rows" => self.count(item),
            _ if item.keyword == "row" => {
                self.is_head = false;
                self.rows = self.rows.saturating_add(1);
                self.row = Some(WorkedRow::begin(alloc, item, &self.all)?);
                Ok(())
            }
            Some(row) => row.add(alloc, item),
            None if self.is_head => self.add_for_all(alloc, item),
            None => Ok(()),
        }
    }

    // Takes the number of rows, which ends the file. There must be as many, and at least one.
    fn count(&mut self, item: &Item<'a>) -> Result<(), Why> {
        self.is_counted = true;
        item.has_no_text()?;
        let rows = number(item.rest)?;
        if rows == 0 {
            return Err(Why("a file without rows"));
        }
        if rows != self.rows {
            return Err(Why("another number of rows than there are"));
        }
        Ok(())
    }

    // Takes an item before the first row: it belongs to all rows.
    fn add_for_all(&mut self, alloc: Global, item: &Item<'a>) -> Result<(), Why> {
        match item.keyword {
            "file" | "words" | "status" | "shows" => self.all.add(alloc, item),
            _ => Err(Why("a line that belongs to no row")),
        }
    }

    // Tries the row that was read to its end, if there is one.
    fn finish<R: Print + Threads + Wait + RandomSource + Sync, C: Call>(
        &mut self,
        report: &mut Report<'_, R>,
        call: &C,
        file: &str,
    ) -> io::Result<()> {
        let Some(row) = self.row.take() else {
            return Ok(());
        };
        let line = row.line;
        let name = row.name;
        match tried(report.rt, report.alloc, call, row, &self.all) {
            Ok(other) => report.tried(file, line, name, other),
            Err(why) => report.unread(file, line, why),
        }
    }
}

/// How a row came out, if not as wanted.
pub fn tried<'a, R: Threads + Wait + RandomSource + Sync, C: Call>(
    rt: &R,
    alloc: Global,
    call: &C,
    row: WorkedRow<'a>,
    all: &WorkedRow<'a>,
) -> Result<Option<Tried>, Why> {
    let (row_call, wanted) = row.row_call(alloc, all)?;
    match wanted {
        Wanted::Text(wanted) => {
            let came = call.printed(rt, alloc, row_call)?;
            let tried = Tried {
                wanted,
                came,
                length: None,
            };
            Ok(tried.if_other())
        }
        Wanted::Status(each) => tried_with_each(rt, alloc, call, &row_call, &each),
    }
}

// How a row came out with the shortest prefix of a file with which it did not come out as wanted.
fn tried_with_each<R: Threads + Wait + RandomSource + Sync, C: Call>(
    rt: &R,
    alloc: Global,
    call: &C,
    whole: &RowCall,
    each: &StatusOfEach,
) -> Result<Option<Tried>, Why> {
    for length in each.prefixes.from..each.prefixes.to {
        let row_call = each.prefixes.row_call(alloc, whole, length)?;
        let came = call.printed(rt, alloc, row_call)?;
        let tried = Tried {
            wanted: wanted_of(alloc, each.status, &came)?,
            came,
            length: Some(length),
        };
        if let Some(other) = tried.if_other() {
            return Ok(Some(other));
        }
    }
    Ok(None)
}
