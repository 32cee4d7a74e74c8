//! A pass that looks on while another one works.

ghost use Rattle.std.specs.Prelude.{◌≡◌};
ghost use Rattle.dep_iter.specs.Tasks.{IsTask};
ghost use Rattle.dep_table.specs.Tables.{job_of};
ghost use Rattle.dep_table.specs.Views.{shown};
ghost use Rattle.table_runs.specs.Watching.{IsWatcher, is_refusal};

use crate::seen::Reply;
use dep_table::{Busy, DepTable, Pass};
use ptg_base::TaskId;
use work_board::{Board, Claim};

/// A pass that looks on. It claims only if it runs nothing.
#[derive(Drop)]
pub struct Watcher {
    pub pass: Pass,
    pub idle: bool,
}

// Whether a claim was refused.
fn is_refused(claim: &Claim) -> bool
    ensures { result ≡ is_refusal claim.now }
{
    match claim {
        Claim::Got(_arrivals) => false,
        Claim::Gone => true,
        Claim::Busy => true,
    }
}

// The result of a claim.
fn reply_of(claim: Claim) -> Reply {
    match claim {
        Claim::Got(_arrivals) => Reply::Got,
        Claim::Gone => Reply::Gone,
        Claim::Busy => Reply::Busy,
    }
}

impl Watcher {
    /// Claims a task, if the pass runs nothing.
    pub fn claim(&mut self, table: &DepTable, t: &TaskId) -> Reply
        requires watcher { IsWatcher table.now self.old }
        requires task { IsTask (job_of table.now).matched t.now }
        ensures watcher { IsWatcher table.now self.new }
        ensures names { (shown self.new.pass).names ≡ (shown self.old.pass).names }
    {
        if !self.idle {
            return Reply::NotAsked;
        }
        let claim = Board::try_claim(table, &mut self.pass, table.shard_of(t), t);
        self.idle = is_refused(&claim);
        reply_of(claim)
    }

    /// Takes the turn of a task's shard, lets another pass try to claim the task meanwhile, and gives the turn back.
    pub fn hold(&mut self, table: &DepTable, other: &mut Watcher, t: &TaskId) -> Reply
        requires watcher { IsWatcher table.now self.old }
        requires other { IsWatcher table.now other.old }
        requires task { IsTask (job_of table.now).matched t.now }
        ensures watcher { IsWatcher table.now self.new }
        ensures names { (shown self.new.pass).names ≡ (shown self.old.pass).names }
        ensures other { IsWatcher table.now other.new }
        ensures other_names { (shown other.new.pass).names ≡ (shown other.old.pass).names }
    {
        let shard = table.shard_of(t);
        match table.try_turn(&mut self.pass, shard) {
            Ok(turn) => {
                let reply = other.claim(table, t);
                turn.leave();
                reply
            }
            Err(Busy { pass: _pass }) => Reply::NotAsked,
        }
    }

    /// Whether the pass sees quiet.
    pub fn sees_quiet(&mut self, table: &DepTable) -> bool
        requires { IsWatcher table.now self.old }
        ensures watcher { IsWatcher table.now self.new }
        ensures names { (shown self.new.pass).names ≡ (shown self.old.pass).names }
    {
        Board::see_quiet(table, &mut self.pass)
    }
}
