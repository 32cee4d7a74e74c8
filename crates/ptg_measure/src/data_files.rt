//! Parsing of data files of a given size.
use crate::count::{Count, Counts, Failure};
use data_read::read_data;
use ptg_base::MOST_BYTES;
use std::alloc::Global;

// The number of numbers in a long record of a tile.
const LONG: u32 = 2000;

// A field with a number.
const VALUE: &str = ",1";

// The end of a record with this many numbers.
fn values(alloc: Global, count: u32) -> Result<String, Failure> {
    let mut text = String::new(alloc);
    for _field in 0..count {
        text.push_str(VALUE)?;
    }
    text.push_str("\n")?;
    Ok(text)
}

// The text of a collection of 4,096 tiles of 4,096 numbers, with a long record for each of its first tiles, this many.
fn long_records(alloc: Global, size: u32) -> Result<String, Failure> {
    let mut text = String::from_str(alloc, "elems,4096\ncoll,D,4096\n")?;
    let values = values(alloc, LONG)?;
    for number in 0..size {
        write!(text, "tile,D,{number}")?;
        text.push_str(values.as_str())?;
    }
    Ok(text)
}

// The text of a collection of 65,536 tiles of one number, with a record for each of its first tiles, this many.
fn short_records(alloc: Global, size: u32) -> Result<String, Failure> {
    let mut text = String::from_str(alloc, "elems,1\ncoll,D,65536\n")?;
    for number in 0..size {
        write!(text, "tile,D,{number},7\n")?;
    }
    Ok(text)
}

// The text of this many integers.
fn integers(alloc: Global, size: u32) -> Result<String, Failure> {
    let mut text = String::from_str(alloc, "elems,1\n")?;
    for number in 0..size {
        write!(text, "int,g{number},{number}\n")?;
    }
    Ok(text)
}

// Parses a data file. Counts its bytes and records, and the integers and tiles that they give.
fn read(alloc: Global, text: &str) -> Result<Counts, Failure> {
    if text.len() > MOST_BYTES {
        return Err(Failure::TooLarge);
    }
    let given = read_data(alloc, text.as_bytes())?;
    let mut tiles: u64 = 0;
    for coll in given.colls() {
        tiles = tiles.wrapping_add(coll.tiles.len() as u64);
    }
    Ok(Counts::four(
        Count::of("bytes", text.len() as u64),
        Count::of("records", given.records_read()),
        Count::of("ints", given.ints().len() as u64),
        Count::of("tiles", tiles),
    ))
}

/// Parses a data file with this many records of tiles, of 2,000 numbers each.
pub fn long_tiles(alloc: Global, size: u32) -> Result<Counts, Failure> {
    let text = long_records(alloc, size)?;
    read(alloc, text.as_str())
}

/// Parses a data file with this many records of tiles, of one number each.
pub fn short_tiles(alloc: Global, size: u32) -> Result<Counts, Failure> {
    let text = short_records(alloc, size)?;
    read(alloc, text.as_str())
}

/// Parses a data file of this many integers.
pub fn ints(alloc: Global, size: u32) -> Result<Counts, Failure> {
    let text = integers(alloc, size)?;
    read(alloc, text.as_str())
}
