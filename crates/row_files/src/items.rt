//! A file of rows as items: a keyword with what follows it on its line, and the text below it.

use crate::escapes::spell;
use crate::why::Why;
use std::alloc::Global;

/// A keyword, what follows it on its line, and the lines between two lines of dashes below it.
#[derive(Drop)]
pub struct Item<'a> {
    /// The number of its line, from 1.
    pub line: usize,
    pub keyword: &'a str,
    pub rest: &'a str,
    block: Option<Vec<&'a str>>,
}

// The line before a text, and the line after it.
const DASHES: &str = "---";

// The items so far, and the lines of the text that is open, if one is.
#[derive(Drop)]
struct Reading<'a> {
    list: Vec<Item<'a>>,
    open: Option<Vec<&'a str>>,
}

impl<'a> Reading<'a> {
    // Takes a line: of the text that is open, or one that begins an item.
    fn add(&mut self, alloc: Global, number: usize, line: &'a str) -> Result<(), Why> {
        if line == DASHES {
            return self.open_or_close(alloc);
        }
        match &mut self.open {
            Some(lines) => lines.push(line)?,
            None => {
                if let Some(item) = item_of(number, line) {
                    self.list.push(item)?;
                }
            }
        }
        Ok(())
    }

    // Opens a text, or ends the one that is open, which belongs to the last item.
    fn open_or_close(&mut self, alloc: Global) -> Result<(), Why> {
        match self.open.take() {
            None => {
                self.open = Some(Vec::new(alloc));
                Ok(())
            }
            Some(lines) => close(&mut self.list, lines),
        }
    }
}

// Adds the lines of a text. Returns how many there are, or the number of the first that does not belong, and why.
fn add_lines<'a>(
    alloc: Global,
    reading: &mut Reading<'a>,
    text: &'a str,
) -> Result<usize, (usize, Why)> {
    let mut number = 0usize;
    for line in text.lines() {
        number = number.saturating_add(1);
        if let Err(why) = reading.add(alloc, number, line) {
            return Err((number, why));
        }
    }
    Ok(number)
}

/// The items of a file. Outside of texts, empty lines and lines that begin with `#` are skipped.
pub fn items<'a>(alloc: Global, text: &'a str) -> Result<Vec<Item<'a>>, (usize, Why)> {
    let mut reading = Reading {
        list: Vec::new(alloc),
        open: None,
    };
    let lines = add_lines(alloc, &mut reading, text)?;
    let Reading { list, open } = reading;
    match open {
        None => Ok(list),
        Some(_) => Err((lines, Why("a text without its end"))),
    }
}

// The item of a line, unless it is empty or a comment.
fn item_of<'a>(number: usize, line: &'a str) -> Option<Item<'a>> {
    let line_text = line.trim();
    if line_text.is_empty() || line_text.starts_with('#') {
        return None;
    }
    let (keyword, rest) = first_word(line_text);
    Some(Item {
        line: number,
        keyword,
        rest,
        block: None,
    })
}

/// The first word of a text, and what follows the blanks after it.
pub fn first_word(text: &str) -> (&str, &str) {
    match text.split_once(' ') {
        Some((word, rest)) => (word, rest.trim_start()),
        None => (text, ""),
    }
}

// Gives the last item its text.
fn close<'a>(list: &mut Vec<Item<'a>>, lines: Vec<&'a str>) -> Result<(), Why> {
    match list.last_mut() {
        Some(item) if item.block.is_none() => {
            item.block = Some(lines);
            Ok(())
        }
        _ => Err(Why("a text that belongs to nothing")),
    }
}

impl Item<'_> {
    /// The bytes of the item's text: the lines between the dashes, or else this rest of its line.
    pub fn text(&self, alloc: Global, rest: &str) -> Result<Vec<u8>, Why> {
        let mut bytes = Vec::new(alloc);
        match &self.block {
            Some(_) if !rest.is_empty() => return Err(Why("two texts")),
            Some(lines) => {
                for line in lines {
                    add_text_line(alloc, line, &mut bytes)?;
                }
            }
            None if rest.is_empty() => return Err(Why("a text is lacking")),
            None => add_text_line(alloc, rest, &mut bytes)?,
        }
        Ok(bytes)
    }

    /// Refuses an item that has a text, where none belongs.
    pub fn has_no_text(&self) -> Result<(), Why> {
        match self.block {
            None => Ok(()),
            Some(_) => Err(Why("a text that belongs to nothing")),
        }
    }
}

// Adds a line of a text, with its escapes read.
fn add_text_line(alloc: Global, line: &str, bytes: &mut Vec<u8>) -> Result<(), Why> {
    if spell(alloc, line.as_bytes(), bytes)? {
        bytes.push(b'\n')?;
    }
    Ok(())
}
