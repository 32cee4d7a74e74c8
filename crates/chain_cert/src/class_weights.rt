//! The weights of classes.

ghost use Rattle.std.specs.Prelude.{◌≡◌, IfOk};
ghost use Rattle.name_table.specs.Names.{value_named};
ghost use Rattle.chain_cert.specs.Checking.{AreWeights};
ghost use Rattle.chain_cert.specs.Weights as weighing;

use coll_data::Given;
use plan_core::{ClassPlan, Plan};
use ptg_base::{OutOfMemory, Seq, Text};
use std::alloc::Global;

// The prefix of the names of weights.
const PREFIX: &[u8; 7] = b"weight_";

// The greatest weight of a task.
const MOST_WEIGHT: u64 = 1_000_000;

// A number as a weight.
fn clamped(z: i64) -> u64
    ensures { result ≡ weighing.clamped z }
{
    if z < 0 {
        return 0;
    }
    (z as u64).min(MOST_WEIGHT)
}

// The integer with this name, if there is one.
fn int_named(ints: &[(Text, i64)], name: &[u8]) -> Option<i64>
    ensures { result ≡ value_named ints.now name.now }
{
    for int in ints {
        if name == int.0.bytes() {
            return Some(int.1);
        }
    }
    None
}

// The weight of a class.
fn class_weight(alloc: Global, class: &ClassPlan, given: &Given) -> Result<u64, OutOfMemory>
    ensures { IfOk result (λ w. w ≡ weighing.class_weight given.now class.now) }
{
    let mut name = PREFIX.to_vec(alloc)?;
    name.extend_from_slice(class.name.bytes())?;
    match int_named(given.ints(), name.as_slice()) {
        Some(z) => Ok(clamped(z)),
        None => Ok(1),
    }
}

/// The weights of the classes of a job, by number: the integer `weight_CLASS` of the data, clamped to 0 .. 1,000,000,
/// or 1 if there is none. The JDF need not declare it.
pub fn weights(alloc: Global, plan: &Plan, given: &Given) -> Result<Seq<u64>, OutOfMemory>
    ensures weights { IfOk result (λ ws. ws ≡ weighing.class_weights plan.now given.now) }
    ensures bounded { IfOk result AreWeights }
{
    let mut weights = Seq::new(alloc);
    for class in plan.classes.as_slice() {
        weights.push(class_weight(alloc, class, given)?)?;
    }
    Ok(weights)
}
