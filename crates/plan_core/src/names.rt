//! Finds the names of classes and flows by their numbers.

ghost use Rattle.std.specs.Prelude.{◌≡◌};
ghost use Rattle.plan_core.specs.NamesByNumber.{class_name, flow_name};

use crate::plan::Plan;

/// The name of the class with this number; empty if there is no such class.
pub fn class_name(plan: &Plan, class: u32) -> &[u8]
    ensures { result.now ≡ class_name plan.now class }
{
    match plan.classes.as_slice().get(class as usize) {
        Some(class) => class.name.bytes(),
        None => b"",
    }
}

/// The name of the flow with this number, of the class with this number; empty if `flow` is `None` or there is no such
/// flow.
pub fn flow_name(plan: &Plan, class: u32, flow: Option<u8>) -> &[u8]
    ensures { result.now ≡ flow_name plan.now class flow }
{
    let Some(flow) = flow else {
        return b"";
    };
    let Some(class) = plan.classes.as_slice().get(class as usize) else {
        return b"";
    };
    match class.flows.as_slice().get(flow as usize) {
        Some(flow) => flow.name.bytes(),
        None => b"",
    }
}
