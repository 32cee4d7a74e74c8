//! Data files, read.

use coll_data::{Coll, Given};
use job_stages::given_of;
use ptg_base::{Refusal, Text};
use row_files::{Printed, Why};
use std::alloc::Global;

/// Reads a data file. Returns the number of its records, and what they give in the order of the format; or its first
/// fault.
pub fn read(alloc: Global, bytes: &[u8]) -> Result<Printed, Why> {
    match given_of(alloc, bytes) {
        Ok(given) => Ok(Printed {
            text: shown(alloc, &given)?.into_bytes(),
            status: 0,
        }),
        Err(Refusal::Fault(fault)) => {
            let row = fault.row;
            let code = fault.code;
            let line = format!(in alloc; "data,{row},{code:?}\n")?;
            Ok(Printed {
                text: line.into_bytes(),
                status: 3,
            })
        }
        Err(Refusal::OutOfMemory) => Err(Why("there is no memory for it")),
    }
}

// Lines with what was read.
fn shown(alloc: Global, given: &Given) -> Result<String, Why> {
    let records = given.records_read();
    let elements = given.elements(0);
    let mut text = format!(in alloc; "records,{records}\nelems,{elements}\n")?;
    for (name, elements) in given.types() {
        let name = shown_name(name)?;
        write!(text, "elems,{name},{elements}\n")?;
    }
    for (name, value) in given.ints() {
        let name = shown_name(name)?;
        write!(text, "int,{name},{value}\n")?;
    }
    for coll in given.colls() {
        add_coll(&mut text, coll)?;
    }
    Ok(text)
}

// The collection with the number of its type, and those of its tiles that are not all zeros.
fn add_coll(text: &mut String, coll: &Coll) -> Result<(), Why> {
    let name = shown_name(&coll.name)?;
    let datatype = coll.datatype;
    let (rows, columns) = coll.shape;
    match columns {
        None => write!(text, "coll,{name},{datatype},{rows}\n")?,
        Some(columns) => write!(text, "coll,{name},{datatype},{rows},{columns}\n")?,
    }
    for (index, tile) in coll.tiles.as_slice().iter().enumerate() {
        add_tile(text, index, tile.as_slice())?;
    }
    Ok(())
}

// A tile, by its index in the order of rows.
fn add_tile(text: &mut String, index: usize, numbers: &[i64]) -> Result<(), Why> {
    if numbers.iter().all(|number| *number == 0) {
        return Ok(());
    }
    write!(text, "tile,{index}")?;
    for number in numbers {
        write!(text, ",{number}")?;
    }
    text.push('\n')?;
    Ok(())
}

// The name as text.
fn shown_name(name: &Text) -> Result<&str, Why> {
    str::from_utf8(name.bytes()).map_err(|_| Why("a name that is no text"))
}
