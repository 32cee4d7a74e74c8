//! What the forms of the expressions of a class show of its tasks.

ghost use Rattle.std.specs.Prelude.{◌≡◌, IsTrue};
ghost use Rattle.std.specs.Bool.{OnTrue};
ghost use Rattle.dep_iter.specs.Well.{IsWellTask};
ghost use Rattle.edge_match.specs.Harmless.{IsHarmless};

use crate::harmless::is_harmless_class;
use dep_iter::TaskAt;
use plan_core::Plan;
use term_core::are_small;

/// A class of a plan, and whether all its tasks with small locals are known to be well.
#[derive(Clone, Copy)]
pub(crate) struct ClassForm<'a> {
    pub(crate) plan: &'a Plan,
    pub(crate) class: u32,
    pub(crate) harmless: bool,
    pub(crate) ghost shown: { IsTrue harmless → IsHarmless plan.now class },
}

// Whether all tasks of a class with small locals are known to be well. False if there is no such class.
fn is_known_harmless(plan: &Plan, class: u32) -> bool
    ensures { OnTrue result (IsHarmless plan.now class) }
{
    match plan.classes.as_slice().get(class as usize) {
        Some(found) => is_harmless_class(found),
        None => false,
    }
}

impl<'a> ClassForm<'a> {
    // The form of a class.
    pub(crate) fn of(plan: &'a Plan, class: u32) -> ClassForm<'a>
        ensures plan { result.plan.now ≡ plan.now }
        ensures class { result.class ≡ class }
    {
        let harmless = is_known_harmless(plan, class);
        ClassForm {
            plan,
            class,
            harmless,
        }
    }

    // The form of a class of the same plan. It is this one if the class is the same.
    pub(crate) fn follow(self, class: u32) -> ClassForm<'a>
        ensures plan { result.plan.now ≡ self.entry.plan.now }
        ensures class { result.class ≡ class }
    {
        if self.class == class {
            self
        } else {
            ClassForm::of(self.plan, class)
        }
    }

    // Whether the form of the class shows that a task of it is well.
    fn shows(&self, task: &TaskAt) -> bool
        requires plan { self.now.plan.now ≡ task.now.plan.now }
        requires class { self.now.class ≡ task.now.task.now.class }
        ensures { OnTrue result (IsWellTask task.now.plan.now task.now.task.now) }
    {
        if !self.harmless {
            return false;
        }
        are_small(task.locals)
    }

    // Whether each expression that a task of the class needs has a value. None is evaluated if the form of the class
    // shows it.
    pub(crate) fn is_well(&self, task: &TaskAt) -> bool
        requires plan { self.now.plan.now ≡ task.now.plan.now }
        requires class { self.now.class ≡ task.now.task.now.class }
        ensures { OnTrue result (IsWellTask task.now.plan.now task.now.task.now) }
    {
        if self.shows(task) {
            return true;
        }
        task.well().is_ok()
    }
}
