//! The body of a task, run on its tiles.

ghost use Rattle.std.specs.Prelude.{◌≡◌, length, option_map, slice_get, Some};
ghost use Rattle.body_eval.specs.Meaning.{body_meaning};
ghost use Rattle.plan_core.specs.declared.class.ClassPlan.{ClassPlan};
ghost use Rattle.dep_iter.specs.Tasks as tasks;

use body_eval::{Scratch, run_body};
use dep_iter::TaskAt;
use ptg_base::{Seq, Tile};
use term_core::Trap;

// How a body ended: with the tiles of its task's flows, or with a trap.
#[derive(Drop)]
pub struct Ran {
    pub end: Result<Seq<Option<Tile>>, Trap>,
}

// Runs the body of a task on these tiles, an entry for each of its flows.
pub(crate) fn run_task(at: &TaskAt, tiles: Vec<Option<Tile>>) -> Ran
    requires { length tiles.items ≡ length (tasks.flows_of at.now.plan.now at.now.task.now) }
    ensures { option_map (λ (c : ClassPlan).
        body_meaning c.body (tasks.locals_of at.now.plan.now at.now.task.now) tiles.items)
        (slice_get at.now.plan.now.classes at.now.task.now.class)
        ≡ Some result.end }
{
    let mut tiles = tiles;
    let mut scratch = Scratch::new();
    let class = at.plan.class(at.task.class());
    let end = match run_body(&class.body, at.locals, tiles.as_mut_slice(), &mut scratch) {
        Ok(()) => Ok(Seq::of(tiles)),
        Err(cause) => Err(cause),
    };
    Ran { end }
}
