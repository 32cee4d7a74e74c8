//! Whether levels show that no chain is heavier than a given one.

ghost use Rattle.std.specs.Prelude.{◌≡◌, ◌≤◌, ◌↔◌, List, IsTrue, IfOk, IsOk};
ghost use Rattle.ptg_base.specs.Task.{Task};
ghost use Rattle.chain_cert.specs.Chains.{IsChain};
ghost use Rattle.chain_cert.specs.Checked.{ShowsHeaviest};
ghost use Rattle.chain_cert.specs.Checking.{AreWeights};
ghost use Rattle.chain_cert.specs.Weights as weighing;

use crate::chains::is_chain;
use crate::levels::{are_high_enough, has_tasks_in_order};
use chain_cert::{greatest_level, weight_of};
use dep_iter::Matched;
use ptg_base::{OutOfMemory, TaskId};

// The weight of a chain.
fn chain_weight(weights: &[u64], chain: &[TaskId]) -> u128
    requires { AreWeights weights.now }
    ensures { result ≡ weighing.chain_weight weights.now chain.now }
{
    let mut total: u128 = 0;
    for t in chain {
        total += u128::from(weight_of(weights, t));
    }
    total
}

/// Whether the levels show that no chain is heavier than `chain`. The levels must list all tasks in task order. Each
/// must be at least the weight of its task, and at least that weight plus the level of each source. `chain` must be a
/// chain that weighs as much as the greatest level.
pub fn check_chain(
    m: &Matched,
    weights: &[u64],
    chain: &[TaskId],
    levels: &[(TaskId, u64)],
) -> Result<bool, OutOfMemory>
    requires { AreWeights weights.now }
    // It takes no memory.
    ensures answers { IsOk result }
    ensures exact { IfOk result (λ shows. IsTrue shows ↔ ShowsHeaviest m.now weights.now chain.now levels.now) }
    ensures heaviest { IfOk result (λ shows.
        IsTrue shows → (ts : List Task) → IsChain m.now ts
        → weighing.chain_weight weights.now ts ≤ weighing.chain_weight weights.now chain.now) }
{
    if !has_tasks_in_order(m, levels) {
        return Ok(false);
    }
    if !are_high_enough(m, weights, levels) {
        return Ok(false);
    }
    if !is_chain(m.plan(), chain) {
        return Ok(false);
    }
    Ok(chain_weight(weights, chain) == u128::from(greatest_level(levels)))
}
