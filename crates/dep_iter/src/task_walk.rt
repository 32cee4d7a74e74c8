//! The tasks of a plan, one after another.

ghost use Rattle.std.specs.Prelude.{◌≡◌, ◌<◌, ◌++◌, List, [], Some, drop, length, map, slice_get};
ghost use Rattle.std.specs.Iterator.{YieldsFirst, item_count};
ghost use Rattle.ptg_base.specs.Task.{Task};
ghost use Rattle.term_core.specs.declared.space.ClassSpace.{ClassSpace as ClassSpaceValue};
ghost use Rattle.range_space.specs.Tasks as range;
ghost use Rattle.dep_iter.specs.Tasks as tasks;
ghost use Rattle.dep_iter.specs.Tasks.{task, tasks_from};

use plan_core::Plan;
use ptg_base::TaskId;
use range_space::Space;
use std::marker::Model;

// The tasks of a class that were not yet yielded.
#[derive(Drop)]
struct ClassTasks<'a> {
    class: u32,
    params: Option<Space<'a>>,
}

impl<'a> Model for ClassTasks<'a> {
    ghost use Rattle.std.specs.Prelude.{List, ℤ, map, []};
    ghost use Rattle.std.specs.Option.{option_map_or};
    ghost use Rattle.ptg_base.specs.Task.{Task};
    ghost use Rattle.dep_iter.specs.Tasks.{task};

    ghost Value = { List Task };

    ghost view = { λ c. option_map_or (λ (left : List (List ℤ)). map (task c.class) left) c.params [] };
}

impl<'a> ClassTasks<'a> {
    // No tasks.
    fn none() -> ClassTasks<'a>
        ensures { result ≡ [] }
    {
        ClassTasks {
            class: 0,
            params: None,
        }
    }

    // The tasks of this class.
    fn of(plan: &'a Plan, class: u32) -> ClassTasks<'a>
        requires { class < length plan.now.classes }
        ensures { (s : ClassSpaceValue) → slice_get plan.now.spaces class ≡ Some s
            → result ≡ map (task class) (range.tasks s) }
    {
        ClassTasks {
            class,
            params: Some(Space::new(plan.space(class))),
        }
    }

    // Takes the next task of the class.
    fn next(&mut self) -> Option<TaskId>
        ensures { YieldsFirst (λ left. left) self.old result self.new }
    {
        let params = self.params.as_mut()?.next()?;
        Some(TaskId::new(self.class, params.as_slice()))
    }
}

// The next task of a walk: of those left in the class at hand, or in the classes from number `later` on.
fn next_task<'a>(plan: &'a Plan, later: &mut u32, at_hand: &mut ClassTasks<'a>) -> Option<TaskId>
    ensures { YieldsFirst (λ (left : List Task). left)
        (at_hand.old ++ tasks_from later.old (drop later.old plan.now.spaces)) result
        (at_hand.new ++ tasks_from later.new (drop later.new plan.now.spaces)) }
{
    if let Some(t) = at_hand.next() {
        return Some(t);
    }
    if *later as usize >= plan.classes.len() {
        return None;
    }
    *at_hand = ClassTasks::of(plan, *later);
    *later += 1;
    next_task(plan, later, at_hand)
}

/// An iterator over the tasks of a plan, in walk order. Contracts see it as the list of those not yet yielded. It takes
/// no memory.
#[derive(Drop)]
pub struct Tasks<'a> {
    plan: &'a Plan,
    // The number of the class after the one at hand.
    later: u32,
    at_hand: ClassTasks<'a>,
}

impl<'a> Model for Tasks<'a> {
    ghost use Rattle.std.specs.Prelude.{List, ◌++◌, drop};
    ghost use Rattle.ptg_base.specs.Task.{Task};
    ghost use Rattle.dep_iter.specs.Tasks.{tasks_from};

    ghost Value = { List Task };

    ghost view = { λ t. t.at_hand ++ tasks_from t.later (drop t.later t.plan.now.spaces) };
}

/// All tasks of a plan.
pub fn all_tasks(plan: &Plan) -> Tasks
    ensures { result ≡ tasks.all_tasks plan.now }
{
    Tasks {
        plan,
        later: 0,
        at_hand: ClassTasks::none(),
    }
}

impl Iterator for Tasks<'_> {
    type Item = TaskId;

    ghost next_gives = { YieldsFirst (λ left. left) };

    ghost remaining = { item_count (λ left. left) };

    /// The next task in walk order, and then None.
    fn next(&mut self) -> Option<TaskId> {
        next_task(self.plan, &mut self.later, &mut self.at_hand)
    }
}
