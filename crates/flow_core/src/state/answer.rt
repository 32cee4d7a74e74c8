//! The answer of a run in which nothing more can happen.

ghost use Rattle.std.specs.Prelude.{◌≡◌, ◌≤◌, ◌++◌, [], ◌∷◌, length, IfOk, OnOk, Some, unwrap_or};
ghost use Rattle.std.specs.Map.{keys_of};
ghost use Rattle.ptg_base.specs.Task.{Task};
ghost use Rattle.ptg_base.specs.TaskComparing.{same_task};
ghost use Rattle.ptg_base.specs.TaskOrder.{in_task_order};
ghost use Rattle.coll_data.specs.Data.{Data};
ghost use Rattle.plan_data.specs.Fit.{DataFit};
ghost use Rattle.dep_iter.specs.Tasks as tasks;
ghost use Rattle.dep_iter.specs.Tasks.{IsTask};
ghost use Rattle.dep_iter.specs.Consistent.{IsConsistent};
ghost use Rattle.flow_meaning.specs.declared.outcome.TrapRow.{TrapRow as TrapRowValue};
ghost use Rattle.flow_meaning.specs.declared.outcome.Outcome.{Outcome as OutcomeValue};
ghost use Rattle.flow_meaning.specs.declared.outcome.Outcome.TheVariants.{Complete};
ghost use Rattle.flow_meaning.specs.Answer as meaning;
ghost use Rattle.flow_meaning.specs.Answer.{trap_rows};
ghost use Rattle.list_lemmas.specs.Counting.{count};
ghost use Rattle.flow_meaning.specs.Machine.{IsQuiescent};
ghost use Rattle.flow_meaning.specs.StateAnswer.{state_answer, state_answer_by, state_data};
ghost use Rattle.flow_meaning.specs.Table.{waiting_rows};
ghost use Rattle.flow_core.specs.RunState.{IsRunning, machine};
ghost use Rattle.flow_core.specs.Fits.{Fits, FitsSome};
ghost use Rattle.flow_core.specs.Rows.{claim_traps, waits_among, writes_among};

use crate::arrivals::number_at;
use crate::end::End;
use crate::state::State;
use coll_data::Given;
use dep_iter::{Matched, all_tasks};
use flow_meaning::{Outcome, TrapRow, WaitRow, a_quiescent_state_has_the_meaning};
use goal_count::goal;
use ptg_base::{OutOfMemory, Seq, TaskId, Tile, WriteBack};
use run_answer::{traps_in_task_order, waits_in_task_order, with_written};
use term_core::Trap;

// Adds the row of a task that trapped with this cause.
fn push_trap_row(t: &TaskId, cause: Trap, rows: &mut Vec<TrapRow>) -> Result<(), OutOfMemory>
    ensures { OnOk result (rows.new.items ≡ rows.old.items ++ record { task = t.now; cause = cause } ∷ []) }
{
    rows.push(TrapRow {
        task: t.copy(),
        cause,
    })?;
    Ok(())
}

// Adds the row of a task with this end, if it trapped.
fn push_trap_of_end(t: &TaskId, end: &End, rows: &mut Vec<TrapRow>) -> Result<(), OutOfMemory>
    ensures { OnOk result (rows.new.items ≡ rows.old.items ++ trap_rows t.now (Some end.now)) }
{
    match end.trap() {
        None => Ok(()),
        Some(cause) => push_trap_row(t, cause, rows),
    }
}

// Adds the row of a claimed task if it has trapped.
fn push_trap(t: &TaskId, end: &Option<End>, rows: &mut Vec<TrapRow>) -> Result<(), OutOfMemory>
    ensures { OnOk result (rows.new.items ≡ rows.old.items ++ trap_rows t.now end.now) }
{
    match end {
        Some(end) => push_trap_of_end(t, end, rows),
        None => Ok(()),
    }
}

impl State {
    /// The answer of a run in which no task runs and nothing more can happen.
    pub fn answer(self, m: &Matched, given: Given) -> Result<Outcome, OutOfMemory>
        requires idle { (t : Task) → IsRunning self t → ⊥ }
        requires fits { Fits m.now given self }
        requires quiet { IsQuiescent m.now given (machine self) }
        requires known { DataFit m.now given }
        ensures { IfOk result (λ outcome. outcome ≡ meaning.answer m.now given) }
    {
        a_quiescent_state_has_the_meaning();
        m.plan_is_consistent();
        let found = self.incomplete(m);
        self.complete_unless(m, given, found)
    }

    // Drops a run and its data, and returns this answer.
    fn ended_with(
        self,
        given: Given,
        outcome: Result<Outcome, OutOfMemory>,
    ) -> Result<Outcome, OutOfMemory>
        ensures { result ≡ outcome }
    {
        outcome
    }

    // The answer that was found for an incomplete run, or else that of a complete one.
    fn complete_unless(
        self,
        m: &Matched,
        given: Given,
        found: Result<Option<Outcome>, OutOfMemory>,
    ) -> Result<Outcome, OutOfMemory>
        requires fits { Fits m.now given self }
        requires known { DataFit m.now given }
        ensures { (all : OutcomeValue)
            → IfOk found (λ o.
            unwrap_or o (Complete (length (tasks.all_tasks m.now)) (state_data given (machine self))) ≡ all)
            → IfOk result (λ outcome. outcome ≡ all) }
    {
        match found {
            Ok(None) => self.complete(m, given),
            Ok(Some(outcome)) => self.ended_with(given, Ok(outcome)),
            Err(error) => self.ended_with(given, Err(error)),
        }
    }

    // The answer of a run that is not complete: its traps, or its stall. `None` if all tasks ran without a trap.
    fn incomplete(&self, m: &Matched) -> Result<Option<Outcome>, OutOfMemory>
        requires idle { (t : Task) → IsRunning self.now t → ⊥ }
        requires fits { FitsSome m.now self.now }
        requires consistent { IsConsistent m.now }
        ensures { IfOk result (λ found.
            (G : Data) → Fits m.now G self.now
            → unwrap_or found (Complete (length (tasks.all_tasks m.now)) (state_data G (machine self.now)))
            ≡ state_answer m.now G (machine self.now)) }
    {
        let traps = self.traps()?;
        if !traps.is_empty() {
            return Ok(Some(Outcome::Trapped(traps)));
        }
        self.stall(m)
    }

    // The answer of a run without traps that has stalled. `None` if all tasks ran.
    fn stall(&self, m: &Matched) -> Result<Option<Outcome>, OutOfMemory>
        requires { FitsSome m.now self.now }
        ensures { IfOk result (λ found.
            (G : Data)
            → unwrap_or found (Complete (length (tasks.all_tasks m.now)) (state_data G (machine self.now)))
            ≡ state_answer_by m.now G (machine self.now) []) }
    {
        let ran = self.claims.len() as u64;
        let all = m.tasks();
        if ran == all {
            return Ok(None);
        }
        Ok(Some(Outcome::Stalled(ran, all, self.waits(m)?)))
    }

    // The answer of a run in which all tasks ran without a trap.
    fn complete(self, m: &Matched, given: Given) -> Result<Outcome, OutOfMemory>
        requires fits { Fits m.now given self }
        requires known { DataFit m.now given }
        ensures { IfOk result (λ outcome.
            outcome ≡ Complete (length (tasks.all_tasks m.now)) (state_data given (machine self))) }
    {
        let all = m.tasks();
        Ok(Outcome::Complete(all, self.final_data(m, given)?))
    }

    // The rows of the tasks that have trapped, in task order.
    fn traps(&self) -> Result<Seq<TrapRow>, OutOfMemory>
        requires { (t : Task) → count (same_task t) (keys_of self.now.claims) ≤ 1 }
        ensures { IfOk result (λ rows.
            rows ≡ in_task_order (λ (r : TrapRowValue). r.task) (claim_traps self.now.claims)) }
    {
        let mut rows = Vec::new(self.alloc);
        for (t, end) in self.claims.iter() {
            push_trap(t, end, &mut rows)?;
        }
        Ok(traps_in_task_order(rows))
    }

    // The rows of the tasks that wait, in task order.
    fn waits(&self, m: &Matched) -> Result<Seq<WaitRow>, OutOfMemory>
        requires { FitsSome m.now self.now }
        ensures { IfOk result (λ rows. rows ≡ waiting_rows m.now (machine self.now)) }
    {
        let mut rows = Vec::new(self.alloc);
        for t in all_tasks(m.plan()) {
            self.push_wait(m, &t, &mut rows)?;
        }
        Ok(waits_in_task_order(rows))
    }

    // Adds the row of a task if it waits.
    fn push_wait(&self, m: &Matched, t: &TaskId, rows: &mut Vec<WaitRow>) -> Result<(), OutOfMemory>
        requires fits { FitsSome m.now self.now }
        requires task { IsTask m.now t.now }
        requires consistent { IsConsistent m.now }
        ensures { OnOk result (rows.new.items ≡ rows.old.items ++ waits_among m.now (machine self.now) (t.now ∷ [])) }
    {
        if self.claims.contains_key(t) {
            return Ok(());
        }
        let arrived = number_at(&self.arrived, t);
        let goal = goal(m, t);
        if arrived == 0 {
            return Ok(());
        }
        if arrived >= goal {
            return Ok(());
        }
        rows.push(WaitRow {
            task: t.copy(),
            arrived,
            goal,
        })?;
        Ok(())
    }

    // The data with the tile of each place replaced by what was written back to it, if anything was.
    fn final_data(self, m: &Matched, given: Given) -> Result<Given, OutOfMemory>
        requires fits { Fits m.now given self }
        requires known { DataFit m.now given }
        ensures { IfOk result (λ end. end ≡ state_data given (machine self)) }
    {
        m.plan_is_consistent();
        given.data_are_well_made();
        let written = self.into_writes()?;
        Ok(with_written(given, written))
    }

    // The write-backs that were sent, each with its tile, in the order of the sends.
    fn into_writes(self) -> Result<Vec<(WriteBack, Tile)>, OutOfMemory>
        ensures { IfOk result (λ writes. writes.items ≡ writes_among self.sends) }
    {
        let State {
            alloc,
            claims: _claims,
            outputs: _outputs,
            sent,
            arrived: _arrived,
        } = self;
        sent.into_writes(alloc)
    }
}
