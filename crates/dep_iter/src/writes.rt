//! The write-backs of a task, one after another.

ghost use Rattle.std.specs.Prelude.{◌≡◌};
ghost use Rattle.std.specs.Iterator.{YieldsFirst, item_count};
ghost use Rattle.dep_iter.specs.Tasks as tasks;
ghost use Rattle.dep_iter.specs.Tasks.{IsTask};
ghost use Rattle.dep_iter.specs.Items as items;
ghost use Rattle.dep_iter.specs.WalkLocals.{walk_locals};

use crate::locals::Locals;
use crate::task::{flows_of, locals_of};
use crate::task_at::TaskAt;
use crate::write_position::{WritePosition, next_write, start_writes};
use plan_core::Plan;
use ptg_base::{TaskId, WriteBack};
use std::marker::Model;

/// An iterator over the write-backs of a task. Contracts see it as the list of those not yet yielded. It takes no
/// memory.
#[derive(Drop)]
pub struct WriteBacks<'a> {
    task: TaskId,
    env: Locals<'a>,
    position: WritePosition<'a>,
}

impl<'a> Model for WriteBacks<'a> {
    ghost use Rattle.std.specs.Prelude.{◌+◌, ◌≤◌, List, length};
    ghost use Rattle.ptg_base.specs.Limits.{most_flows};
    ghost use Rattle.ptg_base.specs.declared.edge.WriteBack.{WriteBack};
    ghost use Rattle.dep_iter.specs.WalkLocals.{walk_locals};
    ghost use Rattle.dep_iter.specs.Writing.{writes_left};

    ghost Value = { List WriteBack };

    ghost view = { λ w. writes_left w.task (walk_locals w.env) w.position };

    ghost invariant = { λ w. w.position.next_flow + length w.position.flows.now ≤ most_flows };
}

// The write-backs of a task, given its locals.
fn task_writes<'a>(plan: &'a Plan, t: &TaskId, locals: Locals<'a>) -> WriteBacks<'a>
    requires task { IsTask plan.now t.now }
    requires locals { walk_locals locals ≡ tasks.locals_of plan.now t.now }
    ensures { result ≡ items.write_backs plan.now t.now }
{
    WriteBacks {
        task: t.copy(),
        env: locals,
        position: start_writes(flows_of(plan, t)),
    }
}

/// The write-backs of a task, by flow and dependence in the text's order. They are evaluated lazily.
pub fn write_backs<'a>(plan: &'a Plan, t: &TaskId) -> WriteBacks<'a>
    requires { IsTask plan.now t.now }
    ensures { result ≡ items.write_backs plan.now t.now }
{
    task_writes(plan, t, Locals::Own(locals_of(plan, t)))
}

impl<'a> TaskAt<'a> {
    /// The write-backs of the task, in the order of `write_backs`.
    pub fn write_backs(&self) -> WriteBacks<'a>
        ensures { result ≡ items.write_backs self.now.plan.now self.now.task.now }
    {
        task_writes(self.plan, self.task, Locals::Lent(self.locals))
    }
}

impl Iterator for WriteBacks<'_> {
    type Item = WriteBack;

    ghost next_gives = { YieldsFirst (λ left. left) };

    ghost remaining = { item_count (λ left. left) };

    fn next(&mut self) -> Option<WriteBack> {
        next_write(&self.task, self.env.as_slice(), &mut self.position)
    }
}
