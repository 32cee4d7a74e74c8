//! How much memory a preload takes.

ghost use Rattle.std.specs.Prelude.{◌≡◌, ◌<◌, ◌+◌, ◌*◌, ◌^◌, sum};
ghost use Rattle.run_pool.specs.Bytes as bytes;

use crate::elements::sent_elements;
use dep_iter::Matched;
use plan_core::Plan;
use ptg_base::MOST_FLOWS;

// The sum of the numbers in one tile of each type.
fn type_elements(plan: &Plan) -> u64
    requires { sum plan.now.elems < 2 ^ 64 }
    ensures { result ≡ sum plan.now.elems }
{
    let mut all = 0;
    for elems in plan.elems.as_slice() {
        all += u64::from(*elems);
    }
    all
}

/// The bytes that a preload takes for this many workers. It has a tile for each data edge and each write-back and, for
/// each worker, as many tiles of each type as a task may have flows. The call itself takes no memory.
pub fn preload_bytes(m: &Matched, workers: u32) -> u64
    ensures { result ≡ bytes.preload_bytes m.now workers }
{
    let sent = sent_elements(m);
    let each = type_elements(m.plan());
    8 * (sent + MOST_FLOWS as u64 * u64::from(workers) * each)
}
