//! What is printed of the rows, and how many there are.

use crate::shown::difference;
use crate::tried::Tried;
use crate::why::Why;
use std::alloc::Global;
use std::io;

/// Prints a line for each row that is not as wanted or can't be read, and counts the rows.
#[derive(Drop)]
pub struct Report<'a, R: Print> {
    /// What rows are tried with.
    pub rt: &'a R,
    /// What rows take their memory from.
    pub alloc: Global,
    /// How many rows came out as wanted.
    pub as_wanted: u64,
    /// How many did not, or could not be read. A file that can't be read counts once.
    pub others: u64,
}

impl<'a, R: Print> Report<'a, R> {
    /// A report on no row so far.
    pub fn new(rt: &'a R, alloc: Global) -> Report<'a, R> {
        Report {
            rt,
            alloc,
            as_wanted: 0,
            others: 0,
        }
    }

    /// Prints why the file or the row at a line of it can't be read.
    pub fn unread(&mut self, file: &str, line: usize, Why(why): Why) -> io::Result<()> {
        self.others = self.others.saturating_add(1);
        let rt = self.rt;
        println!(rt; "{file}:{line}: can't be read: {why}")
    }

    /// Counts a row, and prints the difference if it is not as wanted.
    pub fn tried(
        &mut self,
        file: &str,
        line: usize,
        name: &str,
        other: Option<Tried>,
    ) -> io::Result<()> {
        let Some(tried) = other else {
            self.as_wanted = self.as_wanted.saturating_add(1);
            return Ok(());
        };
        self.others = self.others.saturating_add(1);
        let rt = self.rt;
        let difference = difference(self.alloc, &tried)?;
        match tried.length {
            None => println!(rt; "{file}:{line}: {name}: {difference}"),
            Some(length) => println!(rt; "{file}:{line}: {name}, {length} bytes: {difference}"),
        }
    }

    /// Prints the last line: that all rows came out as wanted, or how many did, and how many did not.
    pub fn end(&self) -> io::Result<()> {
        let rt = self.rt;
        let as_wanted = self.as_wanted;
        let others = self.others;
        if others > 0 {
            println!(rt; "{as_wanted} rows as wanted, {others} not")
        } else {
            println!(rt; "all rows as wanted")
        }
    }
}
