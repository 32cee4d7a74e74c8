//! How many numbers are sent over the edges and write-backs of a job.

ghost use Rattle.std.specs.Prelude.{◌≡◌, ◌≤◌, ◌<◌, ◌^◌, length, if◌then◌else◌};
ghost use Rattle.plan_core.specs.Kinds as kinds;
ghost use Rattle.dep_iter.specs.Edges as edges;
ghost use Rattle.dep_iter.specs.Tasks.{IsTask};
ghost use Rattle.run_pool.specs.Bytes as bytes;
ghost use Rattle.run_pool.specs.Elements as elements;

use dep_iter::{Matched, TaskAt, all_tasks, flows_of};
use plan_core::Plan;
use ptg_base::TaskId;
use range_space::Numbers;

// How many numbers a tile of this flow of a task has; 0 if there is no such flow.
fn flow_elements(plan: &Plan, t: &TaskId, flow: u8) -> u64
    requires { IsTask plan.now t.now }
    ensures { result ≡ bytes.elements_of plan.now (kinds.flow_of plan.now.classes t.now.class flow) }
{
    match flows_of(plan, t).get(flow as usize) {
        Some(f) => u64::from(plan.elements(f.datatype)),
        None => 0,
    }
}

// Whether this flow of a task carries tiles.
fn is_data_flow(plan: &Plan, t: &TaskId, flow: u8) -> bool
    requires { IsTask plan.now t.now }
    ensures { result ≡ kinds.is_data (kinds.kind_of plan.now.classes t.now.class flow) }
{
    match flows_of(plan, t).get(flow as usize) {
        Some(f) => f.kind.is_data(),
        None => false,
    }
}

// How many numbers are sent over an edge into this flow of a task.
fn carried_elements(plan: &Plan, t: &TaskId, flow: u8) -> u64
    requires { IsTask plan.now t.now }
    ensures { result
        ≡ (if kinds.is_data (kinds.kind_of plan.now.classes t.now.class flow)
        then bytes.elements_of plan.now (kinds.flow_of plan.now.classes t.now.class flow)
        else 0) }
{
    if is_data_flow(plan, t, flow) {
        flow_elements(plan, t, flow)
    } else {
        0
    }
}

// How many numbers are sent over the edges into a task.
fn in_elements(at: &TaskAt) -> u64
    requires { elements.in_elements at.now.plan.now at.now.task.now < 2 ^ 64 }
    ensures { result ≡ elements.in_elements at.now.plan.now at.now.task.now }
{
    let mut all = 0;
    for edge in at.in_edges() {
        all += carried_elements(at.plan, at.task, edge.in_flow);
    }
    all
}

// How many numbers are sent over the write-backs of a task.
fn written_elements(at: &TaskAt) -> u64
    requires { elements.written_elements at.now.plan.now at.now.task.now < 2 ^ 64 }
    ensures { result ≡ elements.written_elements at.now.plan.now at.now.task.now }
{
    let mut all = 0;
    for write in at.write_backs() {
        all += flow_elements(at.plan, at.task, write.flow);
    }
    all
}

// How many numbers are sent over the edges into a task and over its write-backs.
#[tactic(auto, unfolding(crate::specs::Elements::task_elements))]
fn task_elements(plan: &Plan, t: &TaskId) -> u64
    requires task { IsTask plan.now t.now }
    requires at_most { elements.task_elements plan.now t.now < 2 ^ 64 }
    ensures { result ≡ elements.task_elements plan.now t.now }
{
    let mut room = Numbers::new();
    let at = TaskAt::of(plan, t, &mut room);
    in_elements(&at) + written_elements(&at)
}

// How many numbers are sent over the edges into all tasks and over their write-backs, by a walk over the tasks.
fn elements_of_all(m: &Matched) -> u64
    ensures { result ≡ bytes.sent_elements m.now }
{
    let plan = m.plan();
    let mut all = 0;
    for t in all_tasks(plan) {
        all += task_elements(plan, &t);
    }
    all
}

// How many numbers are sent over all edges and write-backs if all tiles are of one type: a product, without a walk.
fn elements_of_one_type(m: &Matched) -> u64
    requires { length m.now.elems ≡ 1 }
    ensures { result ≡ bytes.sent_elements m.now }
{
    let plan = m.plan();
    let elems = plan.elements(0);
    let sent = m.data_edges() + m.writes();
    u64::from(elems) * sent
}

// How many numbers the tiles of all data edges and all write-backs have.
pub(crate) fn sent_elements(m: &Matched) -> u64
    ensures same { result ≡ bytes.sent_elements m.now }
    ensures at_most { result ≤ bytes.most_sent_elements }
{
    if m.plan().elems.len() == 1 {
        elements_of_one_type(m)
    } else {
        elements_of_all(m)
    }
}
