//! The lines of a certificate: a heaviest chain with the levels of all tasks, or a cycle.

ghost use Rattle.report_text.specs.Puts.{PrintsText, Puts};
ghost use Rattle.report_text.specs.Found.{chain_head, chain_text, cycle_head, cycle_text};

use crate::answer::{put_complete, put_stalled};
use crate::fields::{Field, put_line};
use crate::pieces::{Pieces, flush};
use crate::row_list::put_list;
use plan_core::Plan;
use ptg_base::{Seq, TaskId};
use ptg_io::{Failed, Sink};

/// What is found about a complete job without a cycle.
#[derive(Drop)]
pub struct HeaviestChain {
    /// How many tasks the job has.
    pub tasks: u64,
    /// The weight of the chain.
    pub weight: u64,
    /// The chain, from its first task on.
    pub chain: Seq<TaskId>,
    /// All tasks with their levels, in task order.
    pub levels: Seq<(TaskId, u64)>,
}

/// What is found about a job that stalled.
#[derive(Drop)]
pub struct FoundCycle {
    /// How many tasks ran.
    pub ran: u64,
    /// How many tasks the job has.
    pub tasks: u64,
    /// The cycle, each task before one that needs it.
    pub cycle: Seq<TaskId>,
}

/// Prints a heaviest chain and the levels of all tasks. On `Err` a prefix of it was written.
pub fn heaviest_chain<O: Sink>(
    plan: &Plan,
    found: &HeaviestChain,
    sink: &mut O,
) -> Result<(), Failed>
    ensures { PrintsText O.bytes O.faults result sink.old sink.new (chain_text plan.now found.now) }
{
    let mut out = Pieces::new();
    put_chain(sink, &mut out, plan, found)?;
    flush(sink, &mut out)
}

/// Prints a cycle. On `Err` a prefix of it was written.
pub fn found_cycle<O: Sink>(plan: &Plan, found: &FoundCycle, sink: &mut O) -> Result<(), Failed>
    ensures { PrintsText O.bytes O.faults result sink.old sink.new (cycle_text plan.now found.now) }
{
    let mut out = Pieces::new();
    put_cycle(sink, &mut out, plan, found)?;
    flush(sink, &mut out)
}

// Puts the text of a heaviest chain.
fn put_chain<O: Sink>(
    sink: &mut O,
    out: &mut Pieces,
    plan: &Plan,
    found: &HeaviestChain,
) -> Result<(), Failed>
    ensures { Puts O.bytes O.faults result sink.old out.old sink.new out.new (chain_text plan.now found.now) }
{
    let chain = found.chain.as_slice();
    let levels = found.levels.as_slice();
    put_chain_head(sink, out, found)?;
    put_list(sink, out, plan, chain)?;
    put_list(sink, out, plan, levels)
}

// Puts the first two lines of a heaviest chain.
fn put_chain_head<O: Sink>(
    sink: &mut O,
    out: &mut Pieces,
    found: &HeaviestChain,
) -> Result<(), Failed>
    ensures { Puts O.bytes O.faults result sink.old out.old sink.new out.new (chain_head found.now) }
{
    put_complete(sink, out, found.tasks)?;
    let length = Field::Number(found.chain.len() as u64);
    put_line(sink, out, b"chain", &[length, Field::Number(found.weight)])
}

// Puts the text of a cycle.
fn put_cycle<O: Sink>(
    sink: &mut O,
    out: &mut Pieces,
    plan: &Plan,
    found: &FoundCycle,
) -> Result<(), Failed>
    ensures { Puts O.bytes O.faults result sink.old out.old sink.new out.new (cycle_text plan.now found.now) }
{
    let cycle = found.cycle.as_slice();
    put_cycle_head(sink, out, found)?;
    put_list(sink, out, plan, cycle)
}

// Puts the first two lines of a cycle.
fn put_cycle_head<O: Sink>(sink: &mut O, out: &mut Pieces, found: &FoundCycle) -> Result<(), Failed>
    ensures { Puts O.bytes O.faults result sink.old out.old sink.new out.new (cycle_head found.now) }
{
    put_stalled(sink, out, found.ran, found.tasks)?;
    put_line(
        sink,
        out,
        b"cycle",
        &[Field::Number(found.cycle.len() as u64)],
    )
}
