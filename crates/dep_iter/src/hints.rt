//! Where a task would best run, and how urgent it is.

ghost use Rattle.std.specs.Prelude.{◌≡◌, ◌<◌, ◌^◌, pos};
ghost use Rattle.ptg_base.specs.Places.{number_in};
ghost use Rattle.plan_core.specs.Place.{HasPlace, IsColumn};
ghost use Rattle.dep_iter.specs.Tasks.{IsTask};
ghost use Rattle.dep_iter.specs.Hints as hints;

use crate::place::{place_of, value_or_zero};
use crate::task_at::TaskAt;
use plan_core::{Plan, Shape};
use ptg_base::{Place, TaskId};
use range_space::Numbers;
use term_core::Expr;

impl TaskAt<'_> {
    /// The place of the affinity of the task, a hint on where it would best run.
    #[tactic(auto, unfolding(crate::specs::Hints::affinity))]
    pub fn affinity(&self) -> Place
        ensures { result ≡ hints.affinity self.now.plan.now self.now.task.now }
    {
        let class = self.plan.class(self.task.class());
        place_of(
            class.affinity.coll,
            class.affinity.indices.as_slice(),
            self.locals,
        )
    }

    /// The priority of the task, or 0 if none is written.
    #[tactic(auto, unfolding(crate::specs::Hints::priority))]
    pub fn priority(&self) -> i64
        ensures { result ≡ hints.priority self.now.plan.now self.now.task.now }
    {
        priority_value(self.locals, &self.plan.class(self.task.class()).priority)
    }
}

/// The place of the affinity of a task, a hint on where it would best run.
pub fn affinity(plan: &Plan, t: &TaskId) -> Place
    requires { IsTask plan.now t.now }
    ensures { result ≡ hints.affinity plan.now t.now }
{
    TaskAt::of(plan, t, &mut Numbers::new()).affinity()
}

// The index of a place by its row and column, in a collection with this many columns.
fn number_in(columns: Option<u32>, row: u64, column: u64) -> u64
    requires row { row < 2 ^ 32 }
    requires column { IsColumn columns (pos column) }
    ensures { result ≡ number_in columns row column }
{
    match columns {
        None => row,
        Some(columns) => row * u64::from(columns) + column,
    }
}

// A law: the number of rows of a collection fits 32 bits.
fn rows_fit(shape: &Shape)
    ensures { shape.now.rows < 2 ^ 32 }
{
    let _rows = shape.rows;
}

/// The index of a place among those of its collection, row by row.
pub fn place_number(plan: &Plan, p: &Place) -> u64
    requires { HasPlace plan.now.colls p.now }
    ensures { result ≡ hints.place_number plan.now p.now }
{
    let shape = plan.coll(p.coll);
    rows_fit(shape);
    number_in(shape.cols, p.i.unsigned_abs(), p.j.unsigned_abs())
}

// The value of a priority, or 0 if none is written.
fn priority_value(env: &[i64], priority: &Option<Expr>) -> i64
    ensures { result ≡ hints.priority_value env.now priority.now }
{
    match priority {
        Some(e) => value_or_zero(env, e),
        None => 0,
    }
}

/// The priority of a task, or 0 if none is written.
pub fn priority(plan: &Plan, t: &TaskId) -> i64
    requires { IsTask plan.now t.now }
    ensures { result ≡ hints.priority plan.now t.now }
{
    TaskAt::of(plan, t, &mut Numbers::new()).priority()
}
