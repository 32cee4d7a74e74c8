//! Prints classes: heads, definitions, affinities, flows, priorities and bodies.

ghost use Rattle.std.specs.Prelude.{◌≡◌, ◌∷◌, [], ◌++◌, OnOk, map};
ghost use Rattle.std.specs.List.{flat_map};
ghost use Rattle.jdf_print.specs.Fragments.{text, token, with_commas, comma};
ghost use Rattle.jdf_print.specs.Spelling.{kind_word, dependence, flow, definition, priority, head, affinity, class};

use crate::argument::{put_argument, put_arguments};
use crate::body::put_body;
use crate::expression::put_expression;
use crate::target::put_dependence;
use crate::writer::{put, put_word};
use jdf_tree::{ClassTree, DefTree, DepTree, ExprTree, FlowTree, Word};
use ptg_base::{OutOfMemory, Seq};
use term_core::FlowKind;

// The word of a kind of flow.
fn word_of_kind(kind: FlowKind) -> &'static [u8]
    ensures { result.now ≡ kind_word kind }
{
    match kind {
        FlowKind::Read => b"READ",
        FlowKind::Write => b"WRITE",
        FlowKind::Rw => b"RW",
        FlowKind::Ctl => b"CTL",
    }
}

// Appends dependences, each on a line of its own.
fn put_dependences(out: &mut Seq<u8>, deps: &[DepTree]) -> Result<(), OutOfMemory>
    ensures { OnOk result (out.new ≡ out.old ++ text (flat_map dependence deps.now)) }
{
    for d in deps {
        put_dependence(out, d)?;
    }
    Ok(())
}

// Appends a flow on a line, then its dependences.
fn put_flow(out: &mut Seq<u8>, f: &FlowTree) -> Result<(), OutOfMemory>
    ensures { OnOk result (out.new ≡ out.old ++ text (flow f.now)) }
{
    put(out, word_of_kind(f.kind))?;
    put(out, b" ")?;
    put_word(out, &f.name)?;
    put(out, b"\n")?;
    put_dependences(out, f.deps.as_slice())
}

// Appends flows.
fn put_flows(out: &mut Seq<u8>, flows: &[FlowTree]) -> Result<(), OutOfMemory>
    ensures { OnOk result (out.new ≡ out.old ++ text (flat_map flow flows.now)) }
{
    for f in flows {
        put_flow(out, f)?;
    }
    Ok(())
}

// Appends a definition on a line.
fn put_definition(out: &mut Seq<u8>, d: &DefTree) -> Result<(), OutOfMemory>
    ensures { OnOk result (out.new ≡ out.old ++ text (definition d.now)) }
{
    put_word(out, &d.name)?;
    put(out, b" = ")?;
    put_argument(out, &d.value)?;
    put(out, b"\n")
}

// Appends definitions.
fn put_definitions(out: &mut Seq<u8>, defs: &[DefTree]) -> Result<(), OutOfMemory>
    ensures { OnOk result (out.new ≡ out.old ++ text (flat_map definition defs.now)) }
{
    for d in defs {
        put_definition(out, d)?;
    }
    Ok(())
}

// Appends the parameters after the first, a comma before each.
fn put_later(out: &mut Seq<u8>, names: &[Word]) -> Result<(), OutOfMemory>
    ensures { OnOk result (out.new ≡ out.old ++ text (flat_map (λ w. comma ++ token w.text ∷ []) names.now)) }
{
    for name in names {
        put(out, b", ")?;
        put_word(out, name)?;
    }
    Ok(())
}

// Appends parameters with commas between them.
fn put_parameters(out: &mut Seq<u8>, names: &[Word]) -> Result<(), OutOfMemory>
    ensures { OnOk result (out.new ≡ out.old ++ text (with_commas (map (λ w. token w.text ∷ []) names.now))) }
{
    let Some((first, later)) = names.split_first() else {
        return Ok(());
    };
    put_word(out, first)?;
    put_later(out, later)
}

// Appends the name of a class and its parameters on a line.
fn put_head(out: &mut Seq<u8>, c: &ClassTree) -> Result<(), OutOfMemory>
    ensures { OnOk result (out.new ≡ out.old ++ text (head c.now)) }
{
    put_word(out, &c.name)?;
    put(out, b"(")?;
    put_parameters(out, c.params.as_slice())?;
    put(out, b")\n")
}

// Appends the affinity of a class on a line.
fn put_affinity(out: &mut Seq<u8>, c: &ClassTree) -> Result<(), OutOfMemory>
    ensures { OnOk result (out.new ≡ out.old ++ text (affinity c.now)) }
{
    put(out, b": ")?;
    put_word(out, &c.affinity)?;
    put_arguments(out, &c.affinity_args)?;
    put(out, b"\n")
}

// Appends a priority on a line, if there is one.
fn put_priority(out: &mut Seq<u8>, value: &Option<ExprTree>) -> Result<(), OutOfMemory>
    ensures { OnOk result (out.new ≡ out.old ++ text (priority value.now)) }
{
    match value {
        Some(e) => {
            put(out, b"; ")?;
            put_expression(out, e)?;
            put(out, b"\n")
        }
        None => Ok(()),
    }
}

/// Appends an empty line and a class.
pub(crate) fn put_class(out: &mut Seq<u8>, c: &ClassTree) -> Result<(), OutOfMemory>
    ensures { OnOk result (out.new ≡ out.old ++ text (class c.now)) }
{
    put(out, b"\n")?;
    put_head(out, c)?;
    put_definitions(out, c.defs.as_slice())?;
    put_affinity(out, c)?;
    put_flows(out, c.flows.as_slice())?;
    put_priority(out, &c.priority)?;
    put(out, b"BODY\n")?;
    put_body(out, c.body.as_slice())?;
    put(out, b"END\n")
}
