//! Resolves the definitions and the parameters of a class.

ghost use Rattle.std.specs.Prelude.{◌≡◌, ◌≤◌, ℕ, List, [], flat_map, length};
ghost use Rattle.jdf_tree.specs.TreeLimits.{IsClassWithinLimits};
ghost use Rattle.type_rules.specs.Contexts.{IsContext, job_of};
ghost use Rattle.type_rules.specs.Returns.{ReturnsChecked, each};
ghost use Rattle.std.specs.List.{list_any};
ghost use Rattle.ptg_base.specs.Limits.{most_locals, most_params};
ghost use Rattle.type_rules.specs.Names.{word_is};
ghost use Rattle.type_rules.specs.Arguments.{argument_faults};
ghost use Rattle.type_rules.specs.Definitions.{is_ranged_local, definition_faults, definition_of, definitions_faults, definitions_of, parameter_faults, parameter_of, space_faults, space_of};

use crate::argument::range;
use crate::context::{Context, local_named};
use crate::expression::term_of;
use crate::fault::fault_if;
use crate::part::{and_rules, join, with_part};
use crate::repeat::repeats;
use jdf_lex::{JdfCode, JdfRefusal, fault_at};
use jdf_tree::{ArgTree, ClassTree, DefTree, Word};
use ptg_base::{Seq, Text};
use std::alloc::Global;
use term_core::{ClassSpace, Def, Params};

// Whether one of the words is this name.
fn has_word(words: &[Word], name: &Text) -> bool
    ensures { result ≡ list_any (word_is name.now) words.now }
{
    words.iter().any(|word| word.text.bytes() == name.bytes())
}

// Whether a definition is a range although its name is no parameter.
fn is_ranged_local(params: &[Word], definition: &DefTree) -> bool
    ensures { result ≡ is_ranged_local params.now definition.now }
{
    match definition.value {
        ArgTree::One(_) => false,
        ArgTree::Span(_, _, _, _) => !has_word(params, &definition.name.text),
    }
}

// Resolves the names in the value of a definition.
fn value(context: &Context, value: &ArgTree) -> Result<Def, JdfRefusal>
    requires { IsContext context.now }
    ensures { ReturnsChecked result (definition_of (job_of context.now) context.now.seen.now value.now)
        (argument_faults (job_of context.now) context.now.seen.now value.now) }
{
    match value {
        ArgTree::One(e) => Ok(Def::Value(term_of(context, e)?)),
        ArgTree::Span(_, lo, hi, step) => Ok(Def::Span(range(context, lo, hi, step)?)),
    }
}

// Resolves a definition, which sees those before it.
fn definition(context: &Context, params: &[Word], definition: &DefTree) -> Result<Def, JdfRefusal>
    requires { IsContext context.now }
    ensures { ReturnsChecked result (definition_of (job_of context.now) context.now.seen.now definition.now.value)
        (definition_faults (job_of context.now) params.now context.now.seen.now definition.now) }
{
    let is_ranged = is_ranged_local(params, definition);
    and_rules(
        value(context, &definition.value),
        fault_if(is_ranged, definition.name.spot, JdfCode::RangedLocal),
    )
}

// Resolves the definitions of a class. Each sees those before it.
fn definitions(
    context: &Context,
    params: &[Word],
    definitions: &[DefTree],
) -> Result<Seq<Def>, JdfRefusal>
    requires context { IsContext context.now }
    requires at_most { length definitions.now ≤ most_locals }
    ensures { ReturnsChecked result (definitions_of (job_of context.now) [] definitions.now)
        (definitions_faults (job_of context.now) params.now [] definitions.now) }
{
    let mut parts = Ok(Seq::new(context.alloc));
    for i in 0..definitions.len() {
        let here = Context {
            seen: &definitions[..i],
            ..*context
        };
        let one = &definitions[i];
        parts = with_part(parts, definition(&here, params, one));
    }
    parts
}

// The number of the definition of a parameter; refuses a parameter that has none.
fn parameter(definitions: &[DefTree], param: &Word) -> Result<u8, JdfRefusal>
    requires { length definitions.now ≤ most_locals }
    ensures { ReturnsChecked result (parameter_of definitions.now param.now)
        (parameter_faults definitions.now param.now) }
{
    match local_named(definitions, &param.text) {
        None => Err(fault_at(param.spot, JdfCode::ParamUndefined)),
        Some(number) => Ok(number as u8),
    }
}

// The numbers of the definitions of the parameters.
fn parameters(
    alloc: Global,
    definitions: &[DefTree],
    params: &[Word],
) -> Result<Seq<u8>, JdfRefusal>
    requires { length definitions.now ≤ most_locals }
    ensures { ReturnsChecked result (each (parameter_of definitions.now) params.now)
        (flat_map (parameter_faults definitions.now) params.now) }
{
    let mut parts = Ok(Seq::new(alloc));
    for param in params {
        parts = with_part(parts, parameter(definitions, param));
    }
    parts
}

// The parameters of a class, as the numbers of their definitions.
fn params_of(alloc: Global, definitions: &[DefTree], params: &[Word]) -> Result<Params, JdfRefusal>
    requires definitions { length definitions.now ≤ most_locals }
    requires params { length params.now ≤ most_params }
    ensures { ReturnsChecked {A = List ℕ} result (each (parameter_of definitions.now) params.now)
        (flat_map (parameter_faults definitions.now) params.now) }
{
    match parameters(alloc, definitions, params) {
        Err(refusal) => Err(refusal),
        Ok(numbers) => Ok(Params::new(numbers.as_slice())),
    }
}

// Resolves the space with these definitions and parameters.
fn space_by(context: &Context, params: &[Word], defs: &[DefTree]) -> Result<ClassSpace, JdfRefusal>
    requires context { IsContext context.now }
    requires params { length params.now ≤ most_params }
    requires definitions { length defs.now ≤ most_locals }
    ensures { ReturnsChecked result (space_of (job_of context.now) params.now defs.now)
        (space_faults (job_of context.now) params.now defs.now) }
{
    let known = and_rules(
        definitions(context, params, defs),
        repeats(context.alloc, JdfCode::LocalTwice, defs),
    );
    let named = and_rules(
        params_of(context.alloc, defs, params),
        repeats(context.alloc, JdfCode::NameTwice, params),
    );
    match join(known, named) {
        Err(refusal) => Err(refusal),
        Ok((defs, params)) => Ok(ClassSpace { defs, params }),
    }
}

/// Resolves the space of a class: its definitions and its parameters.
pub fn space(context: &Context, class: &ClassTree) -> Result<ClassSpace, JdfRefusal>
    requires context { IsContext context.now }
    requires bounded { IsClassWithinLimits class.now }
    ensures { ReturnsChecked result (space_of (job_of context.now) class.now.params class.now.defs)
        (space_faults (job_of context.now) class.now.params class.now.defs) }
{
    space_by(context, class.params.as_slice(), class.defs.as_slice())
}
