//! What the names in the rows' bodies mean.

use body_lang::{FlowName, Scope};
use name_table::NameTable;
use ptg_base::{Seq, Text};
use row_files::Why;
use std::alloc::Global;
use term_core::FlowKind;

/// The globals of the rows' bodies by name.
#[derive(Drop)]
pub struct Tables {
    ints: NameTable<i64>,
    colls: NameTable<u32>,
}

/// The globals: the integer `NB` with the value 7, and the collection `D`.
pub fn globals(alloc: Global) -> Result<Tables, Why> {
    let mut ints = NameTable::new(alloc);
    ints.add(Text::of(alloc, b"NB")?, 7)?;
    let mut colls = NameTable::new(alloc);
    colls.add(Text::of(alloc, b"D")?, 0)?;
    Ok(Tables { ints, colls })
}

/// The scope of these globals, with the locals `k` and `m` and the flows `A` of kind RW, `R` of kind READ, `B` of kind
/// WRITE and `C` of kind CTL.
pub fn scope<'a>(alloc: Global, globals: &'a Tables) -> Result<Scope<'a>, Why> {
    let locals = vec![in alloc; Text::of(alloc, b"k")?, Text::of(alloc, b"m")?]?;
    let flows = vec![in alloc;
        flow(alloc, b"A", FlowKind::Rw)?,
        flow(alloc, b"R", FlowKind::Read)?,
        flow(alloc, b"B", FlowKind::Write)?,
        flow(alloc, b"C", FlowKind::Ctl)?,
    ]?;
    Ok(Scope {
        locals: Seq::of(locals),
        ints: &globals.ints,
        colls: &globals.colls,
        flows: Seq::of(flows),
    })
}

// A flow with this name and this kind.
fn flow(alloc: Global, name: &[u8], kind: FlowKind) -> Result<FlowName, Why> {
    Ok(FlowName {
        name: Text::of(alloc, name)?,
        kind,
    })
}
