//! A row: words, files and failing calls, and what must come.

use crate::files::{change, copies, named_file, put, spelled};
use crate::items::{Item, first_word};
use crate::prefixes::Prefixes;
use crate::why::Why;
use ptg_base::Text;
use ptg_io::File;
use std::alloc::Global;

/// A row as far as it is read.
#[derive(Drop)]
pub struct WorkedRow<'a> {
    /// The number of the row's first line, from 1.
    pub line: usize,
    pub name: &'a str,
    shows: bool,
    files: Vec<File>,
    words: Option<&'a str>,
    // The numbers of the reads that fail, and of the writes, from 1.
    failing_reads: Vec<u64>,
    failing_writes: Vec<u64>,
    prints: Option<Vec<u8>>,
    // How many bytes of the text are printed, if not all of them.
    cut: Option<usize>,
    status: Option<u8>,
    // The prefixes of a file with which it is tried, if it is tried with any.
    prefixes: Option<Prefixes>,
}

/// What a row calls: words, the files that there are, and which reads and writes fail.
#[derive(Drop)]
pub struct RowCall {
    pub files: Vec<File>,
    pub words: Vec<Text>,
    /// The numbers of the reads that fail, from 1.
    pub failing_reads: Vec<u64>,
    /// The numbers of the writes that fail, from 1.
    pub failing_writes: Vec<u64>,
}

impl RowCall {
    /// The bytes of the file of this name.
    pub fn file(&self, name: &Text) -> Result<&[u8], Why> {
        for file in self.files.as_slice() {
            if file.name() == name.bytes() {
                return Ok(file.bytes());
            }
        }
        Err(Why("no file of this name"))
    }
}

/// A text and an exit status.
#[derive(Drop)]
pub struct Printed {
    pub text: Vec<u8>,
    pub status: u8,
}

/// What must come.
#[derive(Drop)]
pub enum Wanted {
    /// This text and status.
    Text(Printed),
    /// A status with each of some prefixes of a file.
    Status(StatusOfEach),
}

/// The status that must come with each of these prefixes of a file. With a status from 1 to 4 one line must come.
#[derive(Drop)]
pub struct StatusOfEach {
    pub status: u8,
    pub prefixes: Prefixes,
}

impl<'a> WorkedRow<'a> {
    /// A row without any item yet.
    pub fn new(alloc: Global) -> WorkedRow<'a> {
        WorkedRow {
            line: 0,
            name: "",
            shows: false,
            files: Vec::new(alloc),
            words: None,
            failing_reads: Vec::new(alloc),
            failing_writes: Vec::new(alloc),
            prints: None,
            cut: None,
            status: None,
            prefixes: None,
        }
    }

    /// The row that an item begins, with the files that all rows have.
    pub fn begin(alloc: Global, item: &Item<'a>, all: &WorkedRow<'a>) -> Result<Self, Why> {
        item.has_no_text()?;
        let mut row = WorkedRow::new(alloc);
        row.line = item.line;
        row.name = item.rest;
        row.files = copies(alloc, all.files.as_slice())?;
        Ok(row)
    }

    /// Adds what an item says.
    pub fn add(&mut self, alloc: Global, item: &Item<'a>) -> Result<(), Why> {
        match item.keyword {
            "file" => put(&mut self.files, named_file(alloc, item)?),
            "prints" => set(&mut self.prints, item.text(alloc, item.rest)?),
            _ => {
                item.has_no_text()?;
                self.add_line(alloc, item)
            }
        }
    }

    // Takes an item of one line.
    fn add_line(&mut self, alloc: Global, item: &Item<'a>) -> Result<(), Why> {
        match item.keyword {
            "shows" => {
                self.shows = !item.rest.is_empty();
                Ok(())
            }
            "change" => change(alloc, &mut self.files, item.rest),
            "words" => set(&mut self.words, item.rest),
            "failing" => self.add_failing(item.rest),
            "cut" => set(&mut self.cut, number(item.rest)?),
            "prefixes" => set(&mut self.prefixes, Prefixes::of(alloc, item.rest)?),
            "status" => set(&mut self.status, status(item.rest)?),
            _ => Err(Why("a keyword that is none")),
        }
    }

    // Takes the numbers of the reads or the writes that fail.
    fn add_failing(&mut self, rest: &str) -> Result<(), Why> {
        match first_word(rest) {
            ("reads", list) => add_numbers(&mut self.failing_reads, list),
            ("writes", list) => add_numbers(&mut self.failing_writes, list),
            _ => Err(Why("failing neither reads nor writes")),
        }
    }

    /// What the row calls and what must come, if the row is complete. Words and status may be those of all rows.
    pub fn row_call(self, alloc: Global, all: &WorkedRow<'a>) -> Result<(RowCall, Wanted), Why> {
        let (Some(list), Some(status)) = (self.words.or(all.words), self.status.or(all.status))
        else {
            return Err(Why("a row without words or status"));
        };
        if !self.shows && !all.shows {
            return Err(Why("a row without shows"));
        }
        let row_call = RowCall {
            files: self.files,
            words: words(alloc, list)?,
            failing_reads: self.failing_reads,
            failing_writes: self.failing_writes,
        };
        let wanted = what_is_wanted(&row_call, status, self.prefixes, self.prints, self.cut)?;
        Ok((row_call, wanted))
    }
}

// What must come of a call: a status with each of some prefixes of a file, or a text, which may be cut, and a status.
fn what_is_wanted(
    row_call: &RowCall,
    status: u8,
    prefixes: Option<Prefixes>,
    prints: Option<Vec<u8>>,
    cut: Option<usize>,
) -> Result<Wanted, Why> {
    match (prefixes, prints) {
        (None, Some(mut text)) => {
            if let Some(length) = cut {
                text.truncate(length);
            }
            Ok(Wanted::Text(Printed { text, status }))
        }
        (Some(prefixes), None) if cut.is_none() => {
            prefixes.belong_to(row_call)?;
            Ok(Wanted::Status(StatusOfEach { status, prefixes }))
        }
        (None, None) => Err(Why("a row without prints")),
        _ => Err(Why("a row with prefixes, and with prints or cut")),
    }
}

// Sets what a row may say only once.
fn set<T: Drop>(place: &mut Option<T>, value: T) -> Result<(), Why> {
    if place.is_some() {
        return Err(Why("a keyword that stands twice in the row"));
    }
    *place = Some(value);
    Ok(())
}

// The words of a list, with their escapes read.
fn words(alloc: Global, list: &str) -> Result<Vec<Text>, Why> {
    let mut words = Vec::new(alloc);
    for word in list.split_whitespace() {
        let bytes = spelled(alloc, word)?;
        words.push(Text::of(alloc, bytes.as_slice())?)?;
    }
    Ok(words)
}

// Adds the numbers of a list.
fn add_numbers(numbers: &mut Vec<u64>, list: &str) -> Result<(), Why> {
    for digits in list.split_whitespace() {
        let value = digits
            .parse::<u64>()
            .map_err(|_| Why("a number that is none"))?;
        numbers.push(value)?;
    }
    Ok(())
}

/// The number of these digits.
pub fn number(digits: &str) -> Result<usize, Why> {
    digits
        .parse::<usize>()
        .map_err(|_| Why("a number that is none"))
}

// The status of these digits.
fn status(digits: &str) -> Result<u8, Why> {
    digits
        .parse::<u8>()
        .map_err(|_| Why("a status that is none"))
}
