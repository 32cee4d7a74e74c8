//! A run of a job, step by step.

ghost use Rattle.std.specs.Prelude.{IsTrue};
ghost use Rattle.ptg_base.specs.Lists.{IsIn};
ghost use Rattle.ptg_base.specs.Task.{Task};
ghost use Rattle.flow_core.specs.RunState.{IsRunning};

use coll_data::Given;
use dep_iter::{Matched, all_tasks, is_task, out_edges, write_backs};
use flow_core::{State, run_one};
use flow_meaning::Outcome;
use job_stages::job_of_texts;
use plan_core::Plan;
use ptg_base::{Edge, Item, OutOfMemory, Place, TaskId, WriteBack};
use sample_jobs::Job;
use std::alloc::Global;
use std::marker::Model;

/// What is asked of a run. A task is its class and its parameter; all edges and write-backs are of flow 0.
#[derive(Clone, Copy)]
pub enum Step {
    /// Claim a task.
    Claim(u32, i64),
    /// Run the body of a task.
    Finish(u32, i64),
    /// Send the edge from the task of class 0 to the one of class 1 with this parameter.
    Edge(i64),
    /// Send a write-back of the task of class 1 with this parameter, to a place of collection 0.
    Write(i64, i64),
    /// Whether the task is running.
    Runs(u32, i64),
    /// Whether nothing more can happen.
    IsOver,
}

/// A run of a job on its data. Contracts see the run alone. Each running task is among those whose claim was tried.
#[derive(Drop)]
pub struct Stepwise {
    job: Matched,
    given: Given,
    run: State,
    tried: Vec<TaskId>,
}

impl Model for Stepwise {
    ghost use Rattle.ptg_base.specs.Lists.{IsIn};
    ghost use Rattle.ptg_base.specs.Task.{Task};
    ghost use Rattle.plan_data.specs.Fit.{DataFit};
    ghost use Rattle.flow_core.specs.RunState.{IsRunning, RunState};
    ghost use Rattle.flow_core.specs.Fits.{Fits};

    ghost Value = { RunState };

    ghost view = { λ s. s.run };

    ghost invariant = { λ s.
        DataFit s.job s.given × Fits s.job s.given s.run
        × ((t : Task) → IsRunning s.run t → IsIn t s.tried.items) };
}

// The edge from the first task to a task of class 1.
fn edge(to: i64) -> Item {
    Item::Edge(Edge {
        from: TaskId::new(0, &[0]),
        out_flow: 0,
        to: TaskId::new(1, &[to]),
        in_flow: 0,
    })
}

// The write-back of a task of class 1 to a place.
fn write(from: i64, place: i64) -> Item {
    Item::Write(WriteBack {
        from: TaskId::new(1, &[from]),
        flow: 0,
        place: Place {
            coll: 0,
            i: place,
            j: 0,
        },
    })
}

// Whether none of these tasks runs.
fn none_runs(run: &State, tasks: &[TaskId]) -> bool
    ensures { IsTrue result → (t : Task) → IsIn t tasks.now → IsRunning run.now t → ⊥ }
{
    let Some((task, others)) = tasks.split_first() else {
        return true;
    };
    if run.is_running(task) {
        return false;
    }
    none_runs(run, others)
}

impl Stepwise {
    /// The run of a job, before anything has happened in it; `None` if the job is not consistent.
    pub fn start(alloc: Global, texts: &Job) -> Result<Option<Stepwise>, OutOfMemory> {
        match job_of_texts(alloc, texts.jdf, texts.data)? {
            Some((job, given)) => Ok(Some(Stepwise {
                job,
                given,
                run: State::start(alloc),
                tried: Vec::new(alloc),
            })),
            None => Ok(None),
        }
    }

    // Whether the run allows the step, or whether what is asked is so.
    fn take(&mut self, step: Step) -> Result<bool, OutOfMemory> {
        match step {
            Step::Claim(class, i) => self.claim(&TaskId::new(class, &[i])),
            Step::Finish(class, i) => self.finish(&TaskId::new(class, &[i])),
            Step::Edge(to) => self.run.send(&self.job, &edge(to)),
            Step::Write(from, place) => self.run.send(&self.job, &write(from, place)),
            Step::Runs(class, i) => Ok(self.run.is_running(&TaskId::new(class, &[i]))),
            Step::IsOver => Ok(self.is_over()),
        }
    }

    /// The number of the first of these steps that does not return what stands beside it, if there is one.
    pub fn first_other(&mut self, steps: &[(Step, bool)]) -> Result<Option<usize>, OutOfMemory> {
        for (n, (step, answer)) in steps.iter().enumerate() {
            if self.take(*step)? != *answer {
                return Ok(Some(n));
            }
        }
        Ok(None)
    }

    // Claims a task, if it may be claimed.
    fn claim(&mut self, t: &TaskId) -> Result<bool, OutOfMemory> {
        self.tried.push(t.copy())?;
        self.run.claim(&self.job, t)
    }

    // Ends a task, if it is running.
    fn finish(&mut self, t: &TaskId) -> Result<bool, OutOfMemory> {
        if !self.run.is_running(t) {
            return Ok(false);
        }
        let _trap = self.run.finish(&self.job, &self.given, t)?;
        Ok(true)
    }

    // Whether nothing more can happen.
    fn is_over(&self) -> bool {
        none_runs(&self.run, self.tried.as_slice()) && self.run.quiescent(&self.job)
    }

    /// Claims the last task that may be claimed, ends it and sends its items, again and again until none may be
    /// claimed.
    pub fn run_backwards(&mut self, alloc: Global) -> Result<(), OutOfMemory> {
        let tasks = tasks_backwards(alloc, self.job.plan())?;
        for _ in 0..tasks.len() {
            if !self.run_first(alloc, tasks.as_slice())? {
                return Ok(());
            }
        }
        Ok(())
    }

    // Claims the first of these tasks that may be claimed, ends it and sends its items. Returns false if none may be
    // claimed.
    fn run_first(&mut self, alloc: Global, tasks: &[TaskId]) -> Result<bool, OutOfMemory> {
        for t in tasks {
            if self.claim(t)? {
                let _ended = self.finish(t)?;
                self.send_all(alloc, t)?;
                return Ok(true);
            }
        }
        Ok(false)
    }

    // Sends the items of a task, its write-backs first, if it has ended without a trap.
    fn send_all(&mut self, alloc: Global, t: &TaskId) -> Result<(), OutOfMemory> {
        let items = items_of(alloc, self.job.plan(), t)?;
        for item in items.as_slice() {
            let _sent = self.run.send(&self.job, item)?;
        }
        Ok(())
    }

    /// The answer; `None` if more can happen.
    pub fn answer(self) -> Result<Option<Outcome>, OutOfMemory> {
        Ok(self.job_and_answer()?.map(|(_job, outcome)| outcome))
    }

    /// The job and its answer; `None` if more can happen.
    pub fn job_and_answer(self) -> Result<Option<(Matched, Outcome)>, OutOfMemory> {
        let Stepwise {
            job,
            given,
            run,
            tried,
        } = self;
        if !none_runs(&run, tried.as_slice()) {
            return Ok(None);
        }
        if !run.quiescent(&job) {
            return Ok(None);
        }
        let outcome = run.answer(&job, given)?;
        Ok(Some((job, outcome)))
    }
}

// The tasks of a plan, the last one first.
fn tasks_backwards(alloc: Global, plan: &Plan) -> Result<Vec<TaskId>, OutOfMemory> {
    let mut tasks = Vec::new(alloc);
    for task in all_tasks(plan) {
        tasks.push(task)?;
    }
    tasks.reverse();
    Ok(tasks)
}

// The items of a task, its write-backs first; no items if it is no task of the plan.
fn items_of(alloc: Global, plan: &Plan, t: &TaskId) -> Result<Vec<Item>, OutOfMemory> {
    let mut items = Vec::new(alloc);
    if !is_task(plan, t) {
        return Ok(items);
    }
    for write in write_backs(plan, t) {
        items.push(Item::Write(write))?;
    }
    for edge in out_edges(plan, t) {
        items.push(Item::Edge(edge))?;
    }
    Ok(items)
}

/// The answer of a job as one thread finds it; `None` if the job is not consistent.
pub fn answer_of_run_one(alloc: Global, texts: &Job) -> Result<Option<Outcome>, OutOfMemory> {
    match job_of_texts(alloc, texts.jdf, texts.data)? {
        Some((job, given)) => Ok(Some(run_one(alloc, &job, given)?)),
        None => Ok(None),
    }
}
