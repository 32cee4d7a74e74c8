//! The rule of the table, in the form in which the kit's table takes it, and the kinds of step.

ghost use Rattle.table_rule.specs.Rule.{Rule};
ghost use Rattle.table_rule.specs.Changes.{after_split, both, first_pass, joined_away, split_off};
ghost use Rattle.table_rule.specs.Plays.{DrawsStamp, GivesBack, GivesClaim, GivesEnd, GivesSend, LowersLive, RaisesHalt, RaisesLive, ReadsHalt, ReadsLive, TriesTurn};

use crate::table_job::TableJob;
use atomic_table::{Join, Play, Split, TableRule};
use dep_shard::Shard;
use std::marker::{Brand, PhantomData};
use work_board::PassRecord;

/// The rule of the table.
pub struct Law;

impl TableRule<Shard, PassRecord, TableJob> for Law {
    ghost holds = { Rule };

    ghost first = { λ _. first_pass };
}

/// What a step is about. A step is given neither the job nor the arguments of its caller, so the caller picks the
/// event: it calls the step at the type `Brand`.
pub trait Event {
    ghost use Rattle.std.specs.Prelude.{List, Option, ℕ};
    ghost use Rattle.ptg_base.specs.Entry.{FlowTile};
    ghost use Rattle.ptg_base.specs.Task.{Task};
    ghost use Rattle.flow_meaning.specs.Machine.{SentItem};
    ghost use Rattle.table_rule.specs.declared.table_job.TableJob.{TableJob};

    // The job. It is None for an event that is about no job, since no plan could stand for that.
    ghost job: { Option TableJob };

    // The shard whose turn is taken.
    ghost shard: { ℕ };

    // The task that is claimed or gets a stamp.
    ghost task: { Task };

    // The tiles that are handed out with the claim.
    ghost tiles: { List FlowTile };

    // The item that is sent, with its tile.
    ghost sent: { SentItem };
}

impl Event for Brand {
    ghost use Rattle.std.specs.Prelude.{[], None};
    ghost use Rattle.table_rule.specs.Events.{no_sent, no_task};

    ghost job = { None };

    ghost shard = { 0 };

    ghost task = { no_task };

    ghost tiles = { [] };

    ghost sent = { no_sent };
}

/// A turn is taken, or is found taken.
pub struct Take<E> {
    event: PhantomData<E>,
}

impl<E: Event> Play<Shard, PassRecord> for Take<E> {
    ghost then = { TriesTurn E.job E.shard };
}

/// A turn is given back without an event.
pub struct Leave;

impl Play<Shard, PassRecord> for Leave {
    ghost then = { GivesBack };
}

/// A turn is given back with a claim.
pub struct Claim<E> {
    event: PhantomData<E>,
}

impl<E: Event> Play<Shard, PassRecord> for Claim<E> {
    ghost then = { GivesClaim E.job E.task E.tiles };
}

/// A turn is given back with a send.
pub struct Send<E> {
    event: PhantomData<E>,
}

impl<E: Event> Play<Shard, PassRecord> for Send<E> {
    ghost then = { GivesSend E.sent };
}

/// A turn is given back with the end of the running task.
pub struct End;

impl Play<Shard, PassRecord> for End {
    ghost then = { GivesEnd };
}

/// The halt word is raised.
pub struct RaiseHalt;

impl Play<Shard, PassRecord> for RaiseHalt {
    ghost then = { RaisesHalt };
}

/// The halt word is read.
pub struct ReadHalt<E> {
    event: PhantomData<E>,
}

impl<E: Event> Play<Shard, PassRecord> for ReadHalt<E> {
    ghost then = { ReadsHalt E.job };
}

/// The live word is raised.
pub struct RaiseLive;

impl Play<Shard, PassRecord> for RaiseLive {
    ghost then = { RaisesLive };
}

/// The live word is lowered.
pub struct LowerLive;

impl Play<Shard, PassRecord> for LowerLive {
    ghost then = { LowersLive };
}

/// The live word is read.
pub struct ReadLive<E> {
    event: PhantomData<E>,
}

impl<E: Event> Play<Shard, PassRecord> for ReadLive<E> {
    ghost then = { ReadsLive E.job };
}

/// A stamp is drawn for the running task.
pub struct DrawStamp<E> {
    event: PhantomData<E>,
}

impl<E: Event> Play<Shard, PassRecord> for DrawStamp<E> {
    ghost then = { DrawsStamp E.task };
}

/// A pass is split off another.
pub struct SplitOff;

impl Split<PassRecord> for SplitOff {
    ghost left = { after_split };

    ghost right = { split_off };
}

/// A pass is joined to another.
pub struct JoinTo;

impl Join<PassRecord> for JoinTo {
    ghost both = { both };

    ghost spent = { joined_away };
}
