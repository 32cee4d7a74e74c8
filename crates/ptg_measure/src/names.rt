//! Parsing of bodies with many names, under as many globals.
use crate::count::{Count, Counts, Failure};
use body_lang::{FlowName, Scope, read_body};
use jdf_lex::tokens;
use name_table::NameTable;
use ptg_base::{MOST_BYTES, Seq, Text};
use std::alloc::Global;
use term_core::FlowKind;

// The number of variables that the body declares: as many as a body may have.
const VARIABLES: u32 = 256;

// The number of names in an expression. With the operators between them they are 127 of the 128 tokens that it may
// have.
const NAMES: u32 = 64;

// A table of this many names.
fn integers(alloc: Global, count: u32) -> Result<NameTable<i64>, Failure> {
    let mut integers = NameTable::new(alloc);
    for number in 0..count {
        let name = format!(in alloc; "g{number}")?;
        integers.add(Text::of(alloc, name.as_bytes())?, i64::from(number))?;
    }
    Ok(integers)
}

// A scope of one flow and these globals.
fn scope<'a>(
    alloc: Global,
    ints: &'a NameTable<i64>,
    colls: &'a NameTable<u32>,
) -> Result<Scope<'a>, Failure> {
    let flow = FlowName {
        name: Text::of(alloc, b"A")?,
        kind: FlowKind::Rw,
    };
    Ok(Scope {
        locals: Seq::new(alloc),
        ints,
        colls,
        flows: Seq::of(vec![in alloc; flow]?),
    })
}

// Adds one more name: a variable at the beginning of a statement, otherwise a global.
fn add_name(text: &mut String, number: u32) -> Result<(), Failure> {
    if number % NAMES > 0 {
        write!(text, " + g{number}")?;
        return Ok(());
    }
    if number > 0 {
        text.push_str(";\n")?;
    }
    write!(text, "A[0] = v{}", number / NAMES % VARIABLES)?;
    Ok(())
}

// A body that declares all variables, and then uses this many names: one of 64 is a variable, and the others are
// globals.
fn body(alloc: Global, size: u32) -> Result<String, Failure> {
    let mut text = String::new(alloc);
    for number in 0..VARIABLES {
        write!(text, "int v{number} = 0;\n")?;
    }
    for number in 0..size {
        add_name(&mut text, number)?;
    }
    if size > 0 {
        text.push_str(";\n")?;
    }
    Ok(text)
}

/// Parses a body with this many names under as many globals. Counts its tokens and its slots.
pub fn names(alloc: Global, size: u32) -> Result<Counts, Failure> {
    let ints = integers(alloc, size)?;
    let colls = NameTable::new(alloc);
    let scope = scope(alloc, &ints, &colls)?;
    let text = body(alloc, size)?;
    if text.len() > MOST_BYTES {
        return Err(Failure::TooLarge);
    }
    let lexed = tokens(alloc, text.as_str())?;
    let (body, _words) = read_body(alloc, lexed.tokens.as_slice(), lexed.end, &scope)?;
    Ok(Counts::two(
        Count::of("tokens", lexed.tokens.len() as u64),
        Count::of("slots", u64::from(body.slots)),
    ))
}
