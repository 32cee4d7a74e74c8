//! Whether anything more can happen in a run.

ghost use Rattle.std.specs.Prelude.{◌≡◌, ◌↔◌, IsTrue};
ghost use Rattle.ptg_base.specs.Task.{Task};
ghost use Rattle.ptg_base.specs.declared.edge.Edge.{Edge as EdgeValue};
ghost use Rattle.ptg_base.specs.declared.edge.WriteBack.{WriteBack as WriteBackValue};
ghost use Rattle.ptg_base.specs.declared.edge.Item.TheVariants as item;
ghost use Rattle.coll_data.specs.Data.{Data};
ghost use Rattle.dep_iter.specs.Items as items;
ghost use Rattle.dep_iter.specs.Tasks as tasks;
ghost use Rattle.dep_iter.specs.Tasks.{IsTask};
ghost use Rattle.flow_meaning.specs.Machine.{IsQuiescent, MayClaim};
ghost use Rattle.flow_meaning.specs.Ending as ending;
ghost use Rattle.flow_core.specs.RunState.{IsRunning, end_of, machine};
ghost use Rattle.flow_core.specs.Fits.{Fits, FitsSome};
ghost use Rattle.flow_core.specs.Quiet.{HasOne, Owes};
ghost use Rattle.flow_core.specs.SentItems.{IsUnsent};

use crate::end::{End, has_outputs};
use crate::state::State;
use dep_iter::{Matched, all_tasks, out_edges, write_backs};
use ptg_base::{Item, TaskId};

impl State {
    /// Whether nothing more can happen in a run in which no task runs: no task may be claimed, and no item may be sent.
    pub fn quiescent(&self, m: &Matched) -> bool
        requires idle { (t : Task) → IsRunning self.now t → ⊥ }
        requires fits { FitsSome m.now self.now }
        ensures { (G : Data) → Fits m.now G self.now → IsTrue result ↔ IsQuiescent m.now G (machine self.now) }
    {
        m.plan_is_consistent();
        if self.has_ready(m) {
            return false;
        }
        !self.has_owing(m)
    }

    // Whether a task may be claimed.
    fn has_ready(&self, m: &Matched) -> bool
        requires { FitsSome m.now self.now }
        ensures { IsTrue result ↔ HasOne (MayClaim m.now (machine self.now)) (tasks.all_tasks m.now) }
    {
        for t in all_tasks(m.plan()) {
            if self.is_ready(m, &t) {
                return true;
            }
        }
        false
    }

    // Whether an item of a task that has ended without a trap was not sent.
    fn has_owing(&self, m: &Matched) -> bool
        requires { FitsSome m.now self.now }
        ensures { IsTrue result ↔ HasOne (Owes m.now self.now.sends) self.now.claims }
    {
        for (t, end) in self.claims.iter() {
            if self.owes(m, t, end) {
                return true;
            }
        }
        false
    }

    // Whether a claimed task has ended without a trap, and an item of it was not sent.
    fn owes(&self, m: &Matched, t: &TaskId, end: &Option<End>) -> bool
        requires task { IsTask m.now t.now }
        requires end { end_of self.now t.now ≡ end.now }
        requires fits { FitsSome m.now self.now }
        ensures { IsTrue result ↔ Owes m.now self.now.sends (t.now, end.now) }
    {
        if !has_outputs(end) {
            return false;
        }
        if self.owes_edge(m, t) {
            return true;
        }
        self.owes_write(m, t)
    }

    // Whether an edge out of a task that has ended without a trap was not sent.
    fn owes_edge(&self, m: &Matched, t: &TaskId) -> bool
        requires task { IsTask m.now t.now }
        requires outputs { IsTrue (ending.has_outputs (end_of self.now t.now)) }
        requires fits { FitsSome m.now self.now }
        ensures { IsTrue result
            ↔ HasOne (λ (e : EdgeValue). IsUnsent self.now.sends (item.Edge e)) (items.out_edges m.now t.now) }
    {
        for edge in out_edges(m.plan(), t) {
            if self.is_unsent(m, &Item::Edge(edge)) {
                return true;
            }
        }
        false
    }

    // Whether a write-back of a task that has ended without a trap was not sent.
    fn owes_write(&self, m: &Matched, t: &TaskId) -> bool
        requires task { IsTask m.now t.now }
        requires outputs { IsTrue (ending.has_outputs (end_of self.now t.now)) }
        requires fits { FitsSome m.now self.now }
        ensures { IsTrue result
            ↔ HasOne (λ (w : WriteBackValue). IsUnsent self.now.sends (item.Write w)) (items.write_backs m.now t.now) }
    {
        for write in write_backs(m.plan(), t) {
            if self.is_unsent(m, &Item::Write(write)) {
                return true;
            }
        }
        false
    }
}
