//! What the names in a body may mean besides its own variables.

ghost use Rattle.std.specs.Prelude.{◌≤◌, length};
ghost use Rattle.ptg_base.specs.Limits.{most_flows, most_locals};

use name_table::NameTable;
use ptg_base::{Seq, Text};
use std::alloc::Global;
use term_core::FlowKind;

/// A flow of a class.
pub struct FlowName {
    pub name: Text,
    pub kind: FlowKind,
}

impl Drop for FlowName {
    fn drop(self) {
        let FlowName {
            name: _name,
            kind: _kind,
        } = self;
    }
}

/// What the names in a body may mean besides its own variables. If two definitions or two flows have one name, it means
/// the first.
pub struct Scope<'a> {
    /// The definitions of the class, in the text's order: at most 16.
    pub locals: Seq<Text>,
    /// The globals that are integers, with their values.
    pub ints: &'a NameTable<i64>,
    /// The globals that are collections, with their numbers.
    pub colls: &'a NameTable<u32>,
    /// The flows of the class, in the text's order: at most 8.
    pub flows: Seq<FlowName>,
    pub ghost locals_at_most: { length locals ≤ most_locals },
    pub ghost flows_at_most: { length flows ≤ most_flows },
}

impl<'a> Drop for Scope<'a> {
    fn drop(self) {
        let Scope {
            locals: _locals,
            ints: _ints,
            colls: _colls,
            flows: _flows,
        } = self;
    }
}

/// What a body is resolved with: its source of memory, and what names mean besides its own variables.
#[derive(Drop)]
pub(crate) struct Context<'a> {
    pub(crate) alloc: Global,
    pub(crate) scope: &'a Scope<'a>,
}
