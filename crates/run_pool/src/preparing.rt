//! What is made ready before a run; with a preload, that includes all memory whose refusal could end the run.

ghost use Rattle.std.specs.Prelude.{◌≡◌, ◌↔◌, ℕ, Err, Some, IfOk};
ghost use Rattle.ptg_base.specs.Limits.{AreRunCounts};
ghost use Rattle.plan_data.specs.Fit.{DataFit};
ghost use Rattle.run_pool.specs.declared.preparing.PrepareFault.TheVariants as prepare_fault;
ghost use Rattle.run_pool.specs.Runs.{run_of, too_large_preload};

use crate::bytes::preload_bytes;
use crate::prepared::Prepared;
use crate::seating::seat_workers;
use crate::settings::Settings;
use coll_data::Given;
use dep_iter::Matched;
use dep_table::DepTable;
use ptg_base::OutOfMemory;
use ready_deques::make;
use std::alloc::Global;

// The largest number of bytes that a preload may take.
const MOST_PRELOAD_BYTES: u64 = 1 << 30;

/// Why a run was not made ready.
#[derive(Clone, Copy, Debug, PartialEq, Eq)]
pub enum PrepareFault {
    /// The preload would take this many bytes, more than 2^30.
    PreloadTooLarge(u64),
    /// Out of memory.
    OutOfMemory,
}

impl From<OutOfMemory> for PrepareFault {
    ghost from_gives = { λ _ fault. fault ≡ prepare_fault.OutOfMemory };

    fn from(_refused: OutOfMemory) -> PrepareFault {
        PrepareFault::OutOfMemory
    }
}

// The bytes of a preload that is asked for and too large, else None.
fn too_large(m: &Matched, settings: Settings) -> Option<u64>
    ensures { result ≡ too_large_preload settings m.now }
{
    if !settings.preload {
        return None;
    }
    let bytes = preload_bytes(m, settings.workers);
    (bytes > MOST_PRELOAD_BYTES).then_some(bytes)
}

/// Makes a run of a job ready: its table, its passes, hands and benches, and room for the close. A preload may have any
/// size. The table hashes tasks with this key ([`DepTable::open`]).
pub fn lay_out(
    alloc: Global,
    m: Matched,
    given: Given,
    settings: Settings,
    key: u64,
) -> Result<Prepared, OutOfMemory>
    requires counts { AreRunCounts settings.workers settings.shards }
    requires fit { DataFit m given }
    ensures { IfOk result (λ p. p ≡ run_of m given settings) }
{
    let (table, first) = DepTable::open(alloc, m, given, settings.shards, settings.preload, key)?;
    let hands = make(alloc, settings.workers)?;
    let desks = seat_workers(alloc, &table, first, hands)?;
    let mut room = Vec::new(alloc);
    room.reserve(desks.len())?;
    Ok(Prepared { table, desks, room })
}

/// Makes a run of a job ready, as `lay_out` does, but first refuses a preload over 2^30 bytes. The only other fault is
/// that it is out of memory.
pub fn prepare(
    alloc: Global,
    m: Matched,
    given: Given,
    settings: Settings,
    key: u64,
) -> Result<Prepared, PrepareFault>
    requires counts { AreRunCounts settings.workers settings.shards }
    requires fit { DataFit m given }
    ensures run { IfOk result (λ p. p ≡ run_of m given settings) }
    ensures too_large { (bytes : ℕ)
        → (result ≡ Err (prepare_fault.PreloadTooLarge bytes)) ↔ (too_large_preload settings m ≡ Some bytes) }
{
    match too_large(&m, settings) {
        Some(bytes) => Err(PrepareFault::PreloadTooLarge(bytes)),
        None => Ok(lay_out(alloc, m, given, settings, key)?),
    }
}
