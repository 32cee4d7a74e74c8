//! A world of ranks.

ghost use Rattle.std.specs.Prelude.{◌≡◌, ◌<◌, ◌≤◌, ◌↔◌, IfOk, IfNone, IfSome, IsTrue, IsFalse, OnErr, OnOk, Some};
ghost use Rattle.std.specs.Prelude.{length, slice_get};
ghost use Rattle.ptg_base.specs.Limits.{IsRankCount, most_ranks};
ghost use Rattle.ptg_base.specs.Lists.{IsIn};
ghost use Rattle.ptg_base.specs.Task.{Task};
ghost use Rattle.plan_data.specs.Fit.{DataFit};
ghost use Rattle.dep_iter.specs.Tasks.{IsTask};
ghost use Rattle.dep_shard.specs.Content.{Content, HasNoReady, IsBest};
ghost use Rattle.flow_meaning.specs.Answer as meaning;
ghost use Rattle.flow_meaning.specs.Machine.{MayClaim};
ghost use Rattle.rank_core.specs.declared.message.Message.{Message as MessageValue};
ghost use Rattle.rank_core.specs.Sound.{IsSoundWorld, message_count};
ghost use Rattle.rank_core.specs.World as world;
ghost use Rattle.rank_core.specs.World.{IsQuiet, is_delivered};
ghost use Rattle.rank_core.specs.Changes.{StaysAt, TakesEdgeAt};
ghost use Rattle.shard_calls.specs.Taken.{MayTakeEdge};
ghost use Rattle.rank_core.specs.Views.{opened, with_delivery};

use crate::history::{History, Number};
use crate::mail::Mail;
use crate::message::Message;
use coll_data::Given;
use dep_iter::Matched;
use dep_shard::{Arrived, Shard};
use flow_meaning::Outcome;
use indexmap::IndexMap;
use ptg_base::{OutOfMemory, TaskId};
use shard_answer::{Room, outcome_of};
use shard_calls::{have_no_work, home_of, opened_ranks, take_edge};
use std::alloc::Global;
use std::marker::Model;
use task_run::Bench;

/// A world of ranks that runs a job in one thread. Each rank has the entries of its own tasks. An edge between two
/// ranks is a message, which may be delivered late, twice and in any order. Contracts see the job, the number of ranks
/// and what has happened.
pub struct World<'m> {
    pub(crate) alloc: Global,
    pub(crate) matched: &'m Matched,
    pub(crate) given: Given,
    pub(crate) ranks: Vec<Shard>,
    pub(crate) bench: Bench,
    pub(crate) mail: Mail,
    pub(crate) history: History,
}

impl<'m> Drop for World<'m> {
    fn drop(self) {
        let World {
            alloc: _alloc,
            matched: _matched,
            given: _given,
            ranks: _ranks,
            bench: _bench,
            mail: _mail,
            history: _history,
        } = self;
    }
}

impl<'m> Model for World<'m> {
    ghost use Rattle.std.specs.Prelude.{length};
    ghost use Rattle.std.specs.Coded.{codes};
    ghost use Rattle.term_core.specs.contracts.body.Block as block;
    ghost use Rattle.term_core.specs.contracts.expr.Expr as expr;
    ghost use Rattle.rank_core.specs.Keeping.{Keeps};
    ghost use Rattle.rank_core.specs.Views.{WorldView};

    ghost Value = { WorldView };

    ghost coded = { Prim.hlevel (codes, expr.the_row.coded, block.the_row.coded) };

    ghost view = { λ w.
        record { plan = w.matched.now; given = w.given; ranks = length w.ranks.items; state = w.history.state } };

    ghost invariant = { λ w. Keeps w.matched.now w.given w.history.state w.ranks.items w.bench w.mail };
}

// Takes the edge of a message into the rank k, with its tile.
fn take_edge_at(
    ranks: &mut Vec<Shard>,
    k: usize,
    m: &Matched,
    message: &Message,
) -> Result<Arrived, OutOfMemory>
    requires within { k < length ranks.old.items }
    requires may { (y : Content) → slice_get ranks.old.items k ≡ Some y
        → MayTakeEdge m.now message.now.edge message.now.tile y }
    ensures ok { OnOk result (TakesEdgeAt m.now message.now k ranks.old.items ranks.new.items) }
    ensures err { OnErr result (StaysAt k ranks.old.items ranks.new.items) }
{
    take_edge(&mut ranks[k], m, &message.edge, message.tile.as_ref())
}

// The best ready task of the rank k.
fn best_at(ranks: &mut Vec<Shard>, k: usize) -> Option<TaskId>
    requires { k < length ranks.old.items }
    ensures same { StaysAt k ranks.old.items ranks.new.items }
    ensures none { IfNone result ((y : Content) → slice_get ranks.old.items k ≡ Some y → HasNoReady y.entries) }
    ensures some { IfSome result (λ t. (y : Content) → slice_get ranks.old.items k ≡ Some y → IsBest y.entries t) }
{
    ranks[k].best_ready()
}

impl<'m> World<'m> {
    /// A world of from 1 to 64 ranks for a job and its data, in which nothing has happened.
    pub fn new(
        alloc: Global,
        m: &'m Matched,
        given: Given,
        ranks: u32,
    ) -> Result<World<'m>, OutOfMemory>
        requires fit { DataFit m.now given }
        requires ranks { IsRankCount ranks }
        ensures opened { IfOk result (λ w. w ≡ opened m.now given ranks) }
        ensures sound { IfOk result (λ w. IsSoundWorld w.plan w.given w.ranks w.state) }
    {
        let shards = opened_ranks(alloc, m, ranks)?;
        let bench = Bench::new(alloc, m)?;
        m.plan_is_consistent();
        Ok(World {
            alloc,
            matched: m,
            given,
            ranks: shards,
            bench,
            mail: Mail {
                under_way: IndexMap::new(alloc),
                sent: 0,
            },
            history: History::new(),
        })
    }

    /// The rank of a task.
    pub fn rank_of(&self, t: &TaskId) -> u32
        requires { IsTask self.now.plan t.now }
        ensures rank { result ≡ world.rank_of self.now.plan self.now.ranks t.now }
        ensures within { result < self.now.ranks }
    {
        home_of(self.matched, self.ranks.len(), t) as u32
    }

    /// How many ranks there are.
    pub fn ranks(&self) -> u32
        ensures number { result ≡ self.now.ranks }
        ensures some { 0 < result }
        ensures at_most { result ≤ most_ranks }
    {
        self.ranks.len() as u32
    }

    /// How many messages were sent. In a quiescent world this is the number of messages of the job at this many ranks.
    pub fn messages(&self) -> u64
        ensures sent { result ≡ length self.now.state.messages }
        ensures all { IsQuiet self.now.plan self.now.state
            → result ≡ message_count self.now.plan self.now.given self.now.ranks }
    {
        self.mail.sent
    }

    /// The number of a message that was not delivered; if there are several, the pick says which. `None` if and only if
    /// there is none.
    pub fn late_message(&self, pick: u64) -> Option<u64>
        ensures some { IfSome result (λ n.
            (m : MessageValue) × (slice_get self.now.state.messages n ≡ Some m)
            × IsFalse (is_delivered self.now.state.machine m)) }
        ensures none { IfNone result
            ((m : MessageValue) → IsIn m self.now.state.messages → IsTrue (is_delivered self.now.state.machine m)) }
    {
        let late = self.mail.under_way.len() as u64;
        if late == 0 {
            return None;
        }
        let Some((number, _message)) = self.mail.under_way.get_index((pick % late) as usize) else {
            return None;
        };
        Some(*number)
    }

    /// A task of a rank that may run: the best by priority, and of equal ones the first in task order. `None` if and
    /// only if there is none. The search drops stale candidates and changes nothing that contracts see.
    pub fn ready(&mut self, rank: u32) -> Option<TaskId>
        requires { rank < self.old.ranks }
        ensures same { self.new ≡ self.old }
        ensures some { IfSome result (λ t.
            MayClaim self.old.plan self.old.state.machine t × (world.rank_of self.old.plan self.old.ranks t ≡ rank)) }
        ensures none { IfNone result
            ((t : Task) → world.rank_of self.old.plan self.old.ranks t ≡ rank
            → MayClaim self.old.plan self.old.state.machine t → ⊥) }
    {
        best_at(&mut self.ranks, rank as usize)
    }

    /// Whether no task may run and each message was delivered.
    pub fn quiescent(&self) -> bool
        ensures { IsTrue result ↔ IsQuiet self.now.plan self.now.state }
    {
        self.mail.under_way.is_empty() && have_no_work(self.ranks.as_slice())
    }

    /// Delivers the message with a number, and returns whether it was not delivered before. If so, its edge is sent
    /// with its tile. If not, or if memory is refused, nothing changes.
    pub fn deliver(&mut self, n: u64) -> Result<bool, OutOfMemory>
        requires { n < length self.old.state.messages }
        ensures exact { IfOk result (λ is_first.
            (m : MessageValue) → slice_get self.old.state.messages n ≡ Some m
            → IsTrue is_first ↔ IsFalse (is_delivered self.old.state.machine m)) }
        ensures state { OnOk result (self.new ≡ with_delivery n self.old) }
        ensures err { OnErr result (self.new ≡ self.old) }
        ensures sound { IsSoundWorld self.new.plan self.new.given self.new.ranks self.new.state }
    {
        self.given.data_are_well_made();
        let Some(message) = self.mail.under_way.get(&n) else {
            return Ok(false);
        };
        let k = home_of(self.matched, self.ranks.len(), &message.edge.to);
        take_edge_at(&mut self.ranks, k, self.matched, message)?;
        let _message = self.mail.under_way.swap_remove(&n);
        self.history = History::with_delivery(&self.history, &Number { value: n });
        Ok(true)
    }

    /// The answer of the job.
    pub fn answer(self) -> Result<Outcome, OutOfMemory>
        requires { IsQuiet self.plan self.state }
        ensures { IfOk result (λ outcome. outcome ≡ meaning.answer self.entry.plan self.entry.given) }
    {
        let World {
            alloc,
            matched,
            given,
            ranks,
            bench: _bench,
            mail: _mail,
            history: _history,
        } = self;
        outcome_of(matched, given, ranks, Room::new(alloc))
    }
}
