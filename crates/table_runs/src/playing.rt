//! Runs of a job by one worker at a watched table, up to the close.

ghost use Rattle.std.specs.Prelude.{◌≡◌, [], ◌∷◌};
ghost use Rattle.table_rule.specs.Changes.{first_pass};
ghost use Rattle.dep_table.specs.Passes.{IsPassOf};
ghost use Rattle.dep_table.specs.Tables.{id_of};
ghost use Rattle.dep_table.specs.Views.{shown};
ghost use Rattle.table_runs.specs.Watching.{IsReadyWatch, IsWatch};

use crate::answer::{Answer, answer_of};
use crate::closing::close_three;
use crate::hands::one_worker;
use crate::seen::Seen;
use crate::watcher::Watcher;
use crate::watching::{Watch, Watched};
use dep_table::{Closed, DepTable, Pass, an_idle_pass_is_a_workers_pass};
use ptg_base::OutOfMemory;
use std::alloc::Global;
use std::fmt;
use std::sync::Wait;
use std::thread::Threads;
use task_run::Bench;
use worker_core::{Always, work};

// Splits two passes off the first one, to look on.
fn with_watch(table: DepTable, first: Pass) -> (Watched, Watch)
    requires pass { IsPassOf (id_of table) first }
    requires first { shown first ≡ first_pass }
    ensures { IsReadyWatch result.0 result.1 }
{
    an_idle_pass_is_a_workers_pass();
    let mut mine = first;
    let one = table.split(&mut mine);
    let two = table.split(&mut mine);
    let watch = Watch {
        mine,
        first: Watcher {
            pass: one,
            idle: true,
        },
        second: Watcher {
            pass: two,
            idle: true,
        },
        seen: Seen::nothing(),
    };
    (Watched { table }, watch)
}

/// The result of a job that was played.
#[derive(Drop)]
pub struct Played {
    /// Whether a pass that looks on saw quiet before the first claim.
    pub quiet_before: bool,
    /// The number of tasks that the worker ran.
    pub ran: u64,
    /// What the calls of the passes returned.
    pub seen: Seen,
    /// Whether a pass that looks on saw quiet at the end.
    pub quiet_after: bool,
    /// The answer of the closed table.
    pub answer: Answer,
}

impl fmt::Display for Played {
    fn fmt<W: fmt::Write>(&self, f: &mut fmt::Formatter<W>) -> fmt::Result {
        write!(
            f,
            "quiet {}, ran {}, {}, ",
            self.quiet_before, self.ran, self.seen
        )?;
        write!(f, "quiet {}; {}", self.quiet_after, self.answer)
    }
}

// Closes the watched table with all its passes.
fn close(alloc: Global, watched: Watched, watch: Watch) -> Result<Closed, OutOfMemory>
    requires watch { IsWatch watched watch }
    requires name { (shown watch.mine).names ≡ ([], 2) ∷ [] }
{
    let Watched { table } = watched;
    let Watch {
        mine,
        first: Watcher {
            pass: first,
            idle: _first_idle,
        },
        second: Watcher {
            pass: second,
            idle: _second_idle,
        },
        seen: _seen,
    } = watch;
    close_three(alloc, table, mine, first, second)
}

// Lets one worker work at a watched table to the end, and returns the number of tasks that it ran.
fn ran_by_one<R: Threads + Wait + Sync>(
    rt: &R,
    alloc: Global,
    watched: &Watched,
    watch: &mut Watch,
) -> Result<u64, OutOfMemory>
    requires watch { IsWatch watched.now watch.old }
    requires idle { (shown watch.old.mine).running ≡ [] }
    ensures watch { IsWatch watched.now watch.new }
    ensures names { (shown watch.new.mine).names ≡ (shown watch.old.mine).names }
{
    let mut hands = one_worker(alloc, &[])?;
    let mut bench = Bench::new(alloc, watched.table.matched())?;
    let worked = work(rt, 0, watched, watch, &mut hands, &Always, &mut bench)?;
    Ok(worked.ran)
}

/// Lets one worker work at a new table while two passes look on, and closes the table.
pub fn play<R: Threads + Wait + Sync>(
    rt: &R,
    alloc: Global,
    table: DepTable,
    first: Pass,
) -> Result<Played, OutOfMemory>
    requires pass { IsPassOf (id_of table) first }
    requires first { shown first ≡ first_pass }
{
    let (watched, mut watch) = with_watch(table, first);
    let quiet_before = watched.sees_quiet(&mut watch);
    let ran = ran_by_one(rt, alloc, &watched, &mut watch)?;
    let quiet_after = watched.sees_quiet(&mut watch);
    let seen = watch.seen;
    let answer = answer_of(close(alloc, watched, watch)?)?;
    Ok(Played {
        quiet_before,
        ran,
        seen,
        quiet_after,
        answer,
    })
}
