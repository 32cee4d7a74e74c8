//! The ties of one target.

ghost use Rattle.std.specs.Prelude.{◌≡◌, [], map, IsTrue, slice_get};
ghost use Rattle.std.specs.Iterator.{YieldsFirst};
ghost use Rattle.dep_iter.specs.Links.{fits};
ghost use Rattle.edge_walk.specs.Ties.{task_tie, ties_to};

use crate::position::Active;
use crate::single::single;
use crate::tie::{Far, Tie};
use dep_iter::{Combinations, arguments_at_most};
use plan_core::{Plan, Target};
use ptg_base::TaskId;
use std::marker::Model;

/// The ties of one target that were not yet yielded: one for each task that it names, or the only one of a target that
/// is no task.
#[derive(Drop)]
pub(crate) struct TargetTies {
    flow: u8,
    dependence: usize,
    single: Option<Far>,
    class: u32,
    far_flow: u8,
    params: Combinations,
}

impl Model for TargetTies {
    ghost use Rattle.std.specs.Prelude.{List, ◌++◌, map, option_to_list};
    ghost use Rattle.edge_walk.specs.declared.tie.Tie.{Tie};
    ghost use Rattle.edge_walk.specs.Ties.{task_tie, tie};

    ghost Value = { List Tie };

    ghost view = { λ t. map (tie t.flow t.dependence) (option_to_list t.single)
        ++ map (task_tie t.flow t.dependence t.class t.far_flow) t.params };
}

// The tie with the next task, if there is one.
fn first_task(
    flow: u8,
    dependence: usize,
    class: u32,
    far_flow: u8,
    params: &Combinations,
) -> Option<Tie>
    ensures { result ≡ slice_get (map (task_tie flow dependence class far_flow) params.now) 0 }
{
    match params.first() {
        Some(values) => Some(Tie {
            flow,
            dependence,
            far: Far::Flow(TaskId::new(class, values), far_flow),
        }),
        None => None,
    }
}

impl TargetTies {
    // No ties.
    pub(crate) fn none() -> TargetTies
        ensures { result ≡ [] }
    {
        TargetTies {
            flow: 0,
            dependence: 0,
            single: None,
            class: 0,
            far_flow: 0,
            params: Combinations::none(),
        }
    }

    // Replaces the ties by those of an active dependence.
    pub(crate) fn restart(&mut self, plan: &Plan, active: Active, env: &[i64])
        requires { IsTrue (fits plan.now active.target.now) }
        ensures { self.new ≡ ties_to env.now active.entry.after.flow active.entry.dependence active.entry.target.now }
    {
        self.flow = active.after.flow;
        self.dependence = active.dependence;
        self.single = single(active.target, env);
        let Target::Task(class, far_flow, args) = active.target else {
            self.params.stop();
            return;
        };
        arguments_at_most(plan, *class, *far_flow, args.as_slice());
        self.class = *class;
        self.far_flow = *far_flow;
        self.params.restart(args.as_slice(), env);
    }

    // The next tie, if there is one.
    pub(crate) fn next(&mut self) -> Option<Tie>
        ensures { YieldsFirst (λ left. left) self.old result self.new }
    {
        if let Some(far) = self.single.take() {
            return Some(Tie {
                flow: self.flow,
                dependence: self.dependence,
                far,
            });
        }
        let tie = first_task(
            self.flow,
            self.dependence,
            self.class,
            self.far_flow,
            &self.params,
        );
        self.params.pass();
        tie
    }
}
