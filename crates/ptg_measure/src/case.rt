//! The cases that can be measured.
use crate::bodies::body;
use crate::certificates::{chain_lists, checked_chain, checked_cycle};
use crate::count::{Counts, Failure};
use crate::data_files::{ints, long_tiles, short_tiles};
use crate::deques::{deep_deque, deque, thieves};
use crate::edges::{edges, job, star_edges};
use crate::names::names;
use crate::shards::{ShardCase, in_a_shard};
use crate::sizes::{size_of_line, size_of_square, size_with_sum};
use crate::spaces::space;
use crate::tables::{close, opened, outcome, turns, turns_in_threads, turns_of_three, unopened};
use crate::texts::tokens_of_text;
use std::alloc::Global;
use std::sync::Wait;
use std::thread::Threads;

/// What is measured.
#[derive(Clone, Copy, Debug, PartialEq, Eq)]
pub enum Case {
    /// A walk through a space of this many tasks, and the count of them by `space_size`.
    Space,
    /// The count of this many tasks in one range, by `space_size` alone.
    Size,
    /// The same for two nested ranges of this many values each.
    SizeOfSquare,
    /// The same with a third definition that is derived.
    SizeWithSum,
    /// A run of a body with this many turns of a loop.
    Body,
    /// The tokens of a JDF text of this many tokens.
    Tokens,
    /// The parsing of a data file with this many records of tiles, of 2,000 numbers each.
    LongTiles,
    /// The parsing of a data file with this many records of tiles, of one number each.
    ShortTiles,
    /// The parsing of a data file of this many integers.
    Ints,
    /// The parsing of a body with this many names, under as many globals.
    Names,
    /// The plan, made from texts, of a job with the shape of a tiled Cholesky factorization with this many rows of
    /// tiles.
    Job,
    /// A walk in both directions over the edges of such a job.
    Edges,
    /// A broadcast to this many tasks and a gather from them: a walk over the edges that checks the other end of each.
    Star,
    /// The lists of a chain of this many tasks, each the source of the next.
    ChainLists,
    /// The same, with the check that no chain is heavier.
    CheckedChain,
    /// The check that this many tasks in a ring are a cycle.
    CheckedCycle,
    /// This many turns of a table, taken and given back by one pass alone.
    Turns,
    /// This many turns by each of three passes, one after the other, on one thread.
    TurnsOfThree,
    /// This many turns of the same shards by each of four passes, each in a thread of its own.
    TurnsInThreads,
    /// The job of this many tasks in a line.
    Unopened,
    /// The same with a table.
    Opened,
    /// The run of one task after which this many others still wait, up to the close of the table.
    Close,
    /// The same, up to its answer.
    Outcome,
    /// A case of one shard.
    Shard(ShardCase),
    /// This many ids pushed to one deque and popped, in bursts.
    Deque,
    /// This many ids pushed to one deque, and then all popped.
    DeepDeque,
    /// This many ids pushed and popped, in bursts, while three others steal.
    Thieves,
}

impl Case {
    /// The case of this name.
    pub fn of(name: &str) -> Option<Case> {
        match name {
            "space" => Some(Case::Space),
            "size" => Some(Case::Size),
            "size_of_square" => Some(Case::SizeOfSquare),
            "size_with_sum" => Some(Case::SizeWithSum),
            "body" => Some(Case::Body),
            "tokens" => Some(Case::Tokens),
            "long_tiles" => Some(Case::LongTiles),
            "short_tiles" => Some(Case::ShortTiles),
            "ints" => Some(Case::Ints),
            "names" => Some(Case::Names),
            "job" => Some(Case::Job),
            "edges" => Some(Case::Edges),
            "star" => Some(Case::Star),
            "chain_lists" => Some(Case::ChainLists),
            "checked_chain" => Some(Case::CheckedChain),
            "checked_cycle" => Some(Case::CheckedCycle),
            "turns" => Some(Case::Turns),
            "turns_of_three" => Some(Case::TurnsOfThree),
            "turns_in_threads" => Some(Case::TurnsInThreads),
            "unopened" => Some(Case::Unopened),
            "opened" => Some(Case::Opened),
            "close" => Some(Case::Close),
            "outcome" => Some(Case::Outcome),
            "deque" => Some(Case::Deque),
            "deep_deque" => Some(Case::DeepDeque),
            "thieves" => Some(Case::Thieves),
            _ => ShardCase::of(name).map(Case::Shard),
        }
    }
}

/// Measures a case at this size.
pub fn measure<R: Threads + Wait + Sync>(
    rt: &R,
    alloc: Global,
    case: Case,
    size: u32,
) -> Result<Counts, Failure> {
    match case {
        Case::Space => space(alloc, size),
        Case::Size => size_of_line(alloc, size),
        Case::SizeOfSquare => size_of_square(alloc, size),
        Case::SizeWithSum => size_with_sum(alloc, size),
        Case::Body => body(alloc, size),
        Case::Tokens => tokens_of_text(alloc, size),
        Case::LongTiles => long_tiles(alloc, size),
        Case::ShortTiles => short_tiles(alloc, size),
        Case::Ints => ints(alloc, size),
        Case::Names => names(alloc, size),
        Case::Job => job(alloc, size),
        Case::Edges => edges(alloc, size),
        Case::Star => star_edges(alloc, size),
        Case::ChainLists => chain_lists(alloc, size),
        Case::CheckedChain => checked_chain(alloc, size),
        Case::CheckedCycle => checked_cycle(alloc, size),
        Case::Turns => turns(alloc, size),
        Case::TurnsOfThree => turns_of_three(alloc, size),
        Case::TurnsInThreads => turns_in_threads(rt, alloc, size),
        Case::Unopened => unopened(alloc, size),
        Case::Opened => opened(alloc, size),
        Case::Close => close(rt, alloc, size),
        Case::Outcome => outcome(rt, alloc, size),
        Case::Shard(case) => Ok(in_a_shard(alloc, case, size)?),
        Case::Deque => Ok(deque(alloc, size)?),
        Case::DeepDeque => Ok(deep_deque(alloc, size)?),
        Case::Thieves => Ok(thieves(rt, alloc, size)?),
    }
}
