//! Tasks and task order.

ghost use Rattle.std.specs.Prelude.{◌≡◌, ◌≤◌, ◌↔◌, length, IsTrue, refl};
ghost use Rattle.std.proofs.Common.{rules};
ghost use Rattle.std.specs.Cmp.{po};
ghost use Rattle.std.specs.Cmp.Rules.{comparing, hashing};
ghost use Rattle.std.specs.Ordering.{as_partial_cmp};
ghost use Rattle.ptg_base.specs.Limits.{most_params};
ghost use Rattle.ptg_base.specs.TaskComparing.{same_task, task_cmp, task_hash, ComparesInTaskOrder};
ghost use Rattle.ptg_base.specs.TaskLaws.{same_task-ties, task_cmp-total};

use crate::limits::MOST_PARAMS;
use arrayvec::ArrayVec;
use std::cmp::Ordering;
use std::hash::{Hash, Hasher};
use std::marker::Model;

/// A task: the number of its class and the values of its parameters, at most eight. It takes no memory.
///
/// Tasks are in task order: by class, then by the parameters as signed numbers from the first on.
#[derive(Debug, Drop)]
pub struct TaskId {
    number: u32,
    values: ArrayVec<i64, MOST_PARAMS>,
}

impl Model for TaskId {
    ghost use Rattle.ptg_base.specs.Task.{Task};

    ghost Value = { Task };

    ghost view = { λ t. record { class = t.number; params = t.values.items } };
}

impl TaskId {
    /// The task of this class with these parameters.
    pub fn new(class: u32, params: &[i64]) -> TaskId
        requires { length params.now ≤ most_params }
        ensures { result ≡ record { class = class; params = params.now } }
    {
        let mut values = ArrayVec::new();
        let _fits = values.try_extend_from_slice(params);
        TaskId {
            number: class,
            values,
        }
    }

    /// The number of the class, from 0.
    pub fn class(&self) -> u32
        ensures { result ≡ self.now.class }
    {
        self.number
    }

    /// The values of the parameters, in order.
    pub fn params(&self) -> &[i64]
        ensures within { length result.now ≤ most_params }
        ensures same { result.now ≡ self.now.params }
    {
        self.values.as_slice()
    }

    /// A copy of the task.
    pub fn copy(&self) -> TaskId
        ensures { result ≡ self.now }
    {
        TaskId::new(self.class(), self.params())
    }
}

impl PartialEq for TaskId {
    ghost eq = { same_task };

    ghost laws = { Prim.search (comparing, rules) };

    fn eq(&self, other: &TaskId) -> bool
        ensures eq { result ≡ same_task self.now other.now }
        ensures same { IsTrue result ↔ (self.now ≡ other.now) }
    {
        self.class() == other.class() && self.params() == other.params()
    }
}

impl Eq for TaskId {
    ghost laws = { Prim.search (comparing, rules) };
}

impl PartialOrd for TaskId {
    ghost partial_cmp = { as_partial_cmp task_cmp };

    ghost laws = { po task_cmp-total same_task-ties };

    fn partial_cmp(&self, other: &TaskId) -> Option<Ordering> {
        Some(self.cmp(other))
    }
}

impl Ord for TaskId {
    ghost cmp = { task_cmp };

    ghost total = { task_cmp-total };

    ghost matches_partial_cmp = { λ _ _. refl };

    ghost matches_eq = { same_task-ties };

    fn cmp(&self, other: &TaskId) -> Ordering
        ensures cmp { result ≡ task_cmp self.now other.now }
        ensures task_order { ComparesInTaskOrder self.now other.now result }
    {
        self.class()
            .cmp(&other.class())
            .then_with(|| self.params().cmp(&other.params()))
    }
}

impl Hash for TaskId {
    ghost hash_input = { task_hash };

    ghost respects_eq = { Prim.search (hashing, rules) };

    fn hash<H: Hasher>(&self, state: &mut H) {
        self.class().hash(state);
        self.params().hash(state);
    }
}
