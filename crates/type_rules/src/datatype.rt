//! Resolves the datatypes of flows.

ghost use Rattle.std.specs.Prelude.{◌≡◌, ◌<◌, ◌≤◌, IfSome, length, position};
ghost use Rattle.std.specs.Str.{bytes_eq};
ghost use Rattle.ptg_base.specs.Limits.{most_named_types};
ghost use Rattle.coll_data.specs.Types.{default_type};
ghost use Rattle.type_rules.specs.Returns.{ReturnsChecked};
ghost use Rattle.type_rules.specs.Datatypes.{type_is, type_number, allowed_type, type_of_written, written_faults, first_written, type_of_flow, flow_type};

use coll_data::{DEFAULT_TYPE, Given};
use jdf_lex::{JdfCode, JdfRefusal, fault_at};
use jdf_tree::{FlowTree, Word};
use ptg_base::Text;
use term_core::FlowKind;

// Whether this is the name of type 0, DEFAULT.
fn is_default(name: &[u8]) -> bool
    ensures { result ≡ bytes_eq name.now default_type }
{
    name == DEFAULT_TYPE
}

// The index of the first of these types that has the name.
fn type_named(types: &[(Text, u32)], name: &[u8]) -> Option<usize>
    ensures number { result ≡ position (type_is name.now) types.now }
    ensures within { IfSome result (λ n. n < length types.now) }
{
    types.iter().position(|named| named.0.bytes() == name)
}

/// The number of the type with this name in the data; DEFAULT is 0.
pub(crate) fn type_number(given: &Given, name: &[u8]) -> Option<u32>
    requires { length given.now.types ≤ most_named_types }
    ensures { result ≡ type_number given.now name.now }
{
    if is_default(name) {
        return Some(0);
    }
    let number = type_named(given.types(), name)?;
    Some(number as u32 + 1)
}

// The number of the datatype with this name, if a flow of this kind may have it: a CTL flow has DEFAULT alone.
fn allowed_type(given: &Given, kind: FlowKind, name: &[u8]) -> Option<u32>
    requires { length given.now.types ≤ most_named_types }
    ensures { result ≡ allowed_type given.now kind name.now }
{
    if kind.is_control() && !is_default(name) {
        return None;
    }
    type_number(given, name)
}

/// The name of the datatype of a dependence: the one that is written on it, or DEFAULT.
pub(crate) fn type_of_written(written: &Option<Word>) -> &[u8]
    ensures { result.now ≡ type_of_written written.now }
{
    match written {
        None => DEFAULT_TYPE,
        Some(word) => word.text.bytes(),
    }
}

/// The number of the datatype of a dependence; refuses one that a flow of this kind may not have.
pub(crate) fn written_type(
    given: &Given,
    kind: FlowKind,
    written: &Option<Word>,
) -> Result<u32, JdfRefusal>
    requires { length given.now.types ≤ most_named_types }
    ensures { ReturnsChecked result (allowed_type given.now kind (type_of_written written.now))
        (written_faults given.now kind written.now) }
{
    match written {
        None => Ok(0),
        Some(word) => match allowed_type(given, kind, word.text.bytes()) {
            None => Err(fault_at(word.spot, JdfCode::Datatype)),
            Some(number) => Ok(number),
        },
    }
}

/// The name of the type of a flow's tiles: that of its first dependence, or DEFAULT.
pub(crate) fn type_of_flow(flow: &FlowTree) -> &[u8]
    ensures { result.now ≡ type_of_flow flow.now }
{
    match flow.deps.as_slice().first() {
        None => DEFAULT_TYPE,
        Some(dependence) => type_of_written(&dependence.datatype),
    }
}

/// The number of the type of a flow's tiles; 0 for a CTL flow.
pub(crate) fn flow_type(given: &Given, flow: &FlowTree) -> Result<u32, JdfRefusal>
    requires { length given.now.types ≤ most_named_types }
    ensures { ReturnsChecked result (flow_type given.now flow.now)
        (written_faults given.now flow.now.kind (first_written flow.now.deps)) }
{
    match flow.deps.as_slice().first() {
        None => Ok(0),
        Some(dependence) => written_type(given, flow.kind, &dependence.datatype),
    }
}
