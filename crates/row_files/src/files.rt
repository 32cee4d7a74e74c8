//! Named texts: the files of a row.

use crate::escapes::spell;
use crate::items::{Item, first_word};
use crate::why::Why;
use ptg_base::{Seq, Text};
use ptg_io::File;
use std::alloc::Global;

/// The file that an item names, with the item's text.
pub fn named_file(alloc: Global, item: &Item) -> Result<File, Why> {
    let (name, rest) = first_word(item.rest);
    let name = spelled(alloc, name)?;
    file_of(alloc, name.as_slice(), item.text(alloc, rest)?)
}

/// A file of this name with these bytes.
pub fn file_of(alloc: Global, name: &[u8], bytes: Vec<u8>) -> Result<File, Why> {
    if name.is_empty() {
        return Err(Why("a text without a name"));
    }
    Ok(File::new(Text::of(alloc, name)?, Seq::of(bytes)))
}

/// Adds a file to files. It replaces the one of its name, if there is one.
pub fn put(files: &mut Vec<File>, file: File) -> Result<(), Why> {
    for held in files.iter_mut() {
        if held.name() == file.name() {
            *held = file;
            return Ok(());
        }
    }
    files.push(file)?;
    Ok(())
}

/// Copies of these files.
pub fn copies(alloc: Global, files: &[File]) -> Result<Vec<File>, Why> {
    let mut list = Vec::new(alloc);
    for file in files {
        let bytes = file.bytes().to_vec(alloc)?;
        list.push(file_of(alloc, file.name(), bytes)?)?;
    }
    Ok(list)
}

/// Carries out `NAME OLD => NEW`: replaces the old text, which must occur once in the file of this name, with the new
/// one.
pub fn change(alloc: Global, files: &mut Vec<File>, order: &str) -> Result<(), Why> {
    let (name, texts) = first_word(order);
    let Some((old, new)) = texts.split_once(" => ") else {
        return Err(Why("a change without =>"));
    };
    let name = spelled(alloc, name)?;
    let old = spelled(alloc, old)?;
    let new = spelled(alloc, new)?;
    for file in files.iter_mut() {
        if file.name() == name.as_slice() {
            let bytes = changed(alloc, file.bytes(), old.as_slice(), new.as_slice())?;
            *file = file_of(alloc, name.as_slice(), bytes)?;
            return Ok(());
        }
    }
    Err(Why("a change of a file that is not there"))
}

/// The bytes that a piece of a line spells.
pub fn spelled(alloc: Global, piece: &str) -> Result<Vec<u8>, Why> {
    let mut bytes = Vec::new(alloc);
    spell(alloc, piece.as_bytes(), &mut bytes)?;
    Ok(bytes)
}

// The text with the one occurrence of a piece replaced.
fn changed(alloc: Global, text: &[u8], old: &[u8], new: &[u8]) -> Result<Vec<u8>, Why> {
    let (before, after) = around_only(text, old)?;
    let mut bytes = before.to_vec(alloc)?;
    bytes.extend_from_slice(new)?;
    bytes.extend_from_slice(after)?;
    Ok(bytes)
}

// The text before and after the one occurrence of a piece.
fn around_only<'a>(text: &'a [u8], piece: &[u8]) -> Result<(&'a [u8], &'a [u8]), Why> {
    let mut found = None;
    for at in 0..text.len() {
        let (before, from) = text.split_at(at);
        if let Some(after) = from.strip_prefix(piece) {
            if found.is_some() {
                return Err(Why("a change of what stands twice"));
            }
            found = Some((before, after));
        }
    }
    found.ok_or(Why("a change of what is not there"))
}
