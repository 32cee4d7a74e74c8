//! A JDF with its data, and the meanings of names there.

ghost use Rattle.std.specs.Prelude.{◌≡◌, ◌<◌, IfSome, length};
ghost use Rattle.type_rules.specs.Names.{int_named, coll_named, class_named, local_named, meaning_of};
ghost use Rattle.type_rules.specs.Contexts.{IsContext, job_of};

use coll_data::Given;
use expr_names::{Meaning, outer_meaning};
use jdf_tree::{DefTree, Jdf};
use name_table::NameTable;
use ptg_base::Text;
use std::alloc::Global;

/// The globals of a JDF, by name.
pub struct Globals {
    /// The value of each global that is an integer of the data.
    pub ints: NameTable<i64>,
    /// The number of each global that is a collection of the data.
    pub colls: NameTable<u32>,
}

impl Drop for Globals {
    fn drop(self) {
        let Globals {
            ints: _ints,
            colls: _colls,
        } = self;
    }
}

/// What names are resolved with: a source of memory, a JDF and its data, the globals by name, and the definitions in
/// scope.
#[derive(Clone, Copy)]
pub struct Context<'a> {
    pub alloc: Global,
    pub jdf: &'a Jdf,
    pub given: &'a Given,
    pub globals: &'a Globals,
    pub seen: &'a [DefTree],
}

/// The value of the global with this name, if it is an integer of the data.
pub fn int_named(context: &Context, name: &Text) -> Option<i64>
    requires { IsContext context.now }
    ensures { result ≡ int_named (job_of context.now) name.now }
{
    context.globals.ints.get(name).copied()
}

/// The number of the global with this name, if it is a collection of the data.
pub fn coll_named(context: &Context, name: &Text) -> Option<u32>
    requires { IsContext context.now }
    ensures { result ≡ coll_named (job_of context.now) name.now }
{
    context.globals.colls.get(name).copied()
}

/// The number of the first definition with this name. It searches all of them, at most 16.
pub(crate) fn local_named(seen: &[DefTree], name: &Text) -> Option<usize>
    ensures number { result ≡ local_named seen.now name.now }
    ensures within { IfSome result (λ n. n < length seen.now) }
{
    seen.iter()
        .position(|definition| definition.name.text.bytes() == name.bytes())
}

/// What a name in an expression means.
pub(crate) fn meaning_of(context: &Context, name: &Text) -> Meaning
    requires { IsContext context.now }
    ensures { result ≡ meaning_of (job_of context.now) context.now.seen.now name.now }
{
    let local = match local_named(context.seen, name) {
        Some(number) => Some(number as u16),
        None => None,
    };
    outer_meaning(local, &context.globals.ints, &context.globals.colls, name)
}

/// The number of the first class with this name. It searches all of them, at most 64.
pub fn class_named(context: &Context, name: &Text) -> Option<usize>
    ensures number { result ≡ class_named (job_of context.now) name.now }
    ensures within { IfSome result (λ n. n < length context.now.jdf.now.classes) }
{
    context
        .jdf
        .classes
        .as_slice()
        .iter()
        .position(|class| class.name.text.bytes() == name.bytes())
}
