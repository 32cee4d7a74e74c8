//! What the names in the body of a class mean.

ghost use Rattle.std.specs.Prelude.{◌≡◌, IfOk};
ghost use Rattle.jdf_tree.specs.TreeLimits.{IsClassWithinLimits};
ghost use Rattle.body_lang.specs.Environment.{environment_of};
ghost use Rattle.type_rules.specs.Contexts.{IsContext, job_of};
ghost use Rattle.type_check.specs.Bodies.{local_names, flow_names, IsEnvironment};

use body_lang::{FlowName, Scope};
use jdf_tree::{ClassTree, DefTree, FlowTree};
use ptg_base::{OutOfMemory, Seq, Text};
use std::alloc::Global;
use type_rules::Context;

// The names of the definitions of a class.
fn local_names(alloc: Global, defs: &[DefTree]) -> Result<Seq<Text>, OutOfMemory>
    ensures { IfOk result (λ names. names ≡ local_names defs.now) }
{
    let mut names = Seq::new(alloc);
    for definition in defs {
        names.push(Text::of(alloc, definition.name.text.bytes())?)?;
    }
    Ok(names)
}

// The names and kinds of the flows of a class.
fn flow_names(alloc: Global, flows: &[FlowTree]) -> Result<Seq<FlowName>, OutOfMemory>
    ensures { IfOk result (λ names. names ≡ flow_names flows.now) }
{
    let mut names = Seq::new(alloc);
    for flow in flows {
        let name = Text::of(alloc, flow.name.text.bytes())?;
        names.push(FlowName {
            name,
            kind: flow.kind,
        })?;
    }
    Ok(names)
}

/// What names mean in the body of a class. The tables of the globals are borrowed.
pub(crate) fn scope_of<'a>(
    context: &Context<'a>,
    class: &ClassTree,
) -> Result<Scope<'a>, OutOfMemory>
    requires context { IsContext context.now }
    requires bounded { IsClassWithinLimits class.now }
    ensures { IfOk result (λ scope. IsEnvironment (job_of context.now) class.now (environment_of scope)) }
{
    let locals = local_names(context.alloc, class.defs.as_slice())?;
    let flows = flow_names(context.alloc, class.flows.as_slice())?;
    Ok(Scope {
        locals,
        ints: &context.globals.ints,
        colls: &context.globals.colls,
        flows,
    })
}
