//! Whether a plan is consistent, or its first fault.

ghost use Rattle.std.specs.Prelude.{◌≡◌, ◌⊎◌, [], Err, IfErr, IfOk, MatchResult, length};
ghost use Rattle.plan_core.specs.declared.plan.Plan.{Plan as PlanValue};
ghost use Rattle.dep_iter.specs.Consistent.{HasCounts, IsConsistent};
ghost use Rattle.dep_iter.specs.Tasks.{all_tasks};
ghost use Rattle.edge_match.specs.Counted.{IsCounted, IsRefusalOf};
ghost use Rattle.edge_match.specs.Faults as faults;
ghost use Rattle.edge_match.specs.FirstFault.{IsFirstFailure, IsFirstFault};
ghost use Rattle.edge_match.specs.Marks.{AllPass, marks, nothing};
ghost use Rattle.edge_match.specs.Sets.{IsSetOf};
ghost use Rattle.edge_match.specs.declared.fault.MatchFault.{MatchFault as MatchFaultValue};
ghost use Rattle.edge_match.specs.declared.fault.MatchRefusal.TheVariants as refusal;

use crate::accepting::accepts;
use crate::counted::Counted;
use crate::fault::{MatchCode, MatchFault, MatchRefusal};
use crate::laws::{
    a_consistent_plan_has_no_fault, a_plan_that_passes_is_consistent,
    all_edges_and_items_are_counted,
};
use crate::phase::Phase;
use crate::place_set::PlaceSet;
use crate::roots::root_count;
use crate::tasks::check_all;
use dep_iter::{Counts, Matched, all_tasks_are_listed};
use plan_core::Plan;
use range_space::{Numbers, SpaceFault, space_size};
use std::alloc::Global;

// A fault of the walk through the spaces, as a fault of the plan.
fn space_fault(fault: SpaceFault) -> MatchFault
    ensures { result ≡ faults.space_fault fault }
{
    match fault {
        SpaceFault::BadExpr(class, outer) => MatchFault {
            code: MatchCode::BadExpr,
            class,
            numbers: outer,
            flow: None,
        },
        SpaceFault::TooManyTasks(class) => MatchFault {
            code: MatchCode::TooManyTasks,
            class,
            numbers: Numbers::new(),
            flow: None,
        },
    }
}

// The counts before anything is counted.
fn nothing_counted(written: PlaceSet) -> Counted
    ensures { (P : PlanValue) → IsSetOf P.colls written [] → IsCounted P result nothing }
{
    Counted {
        ins: 0,
        data_edges: 0,
        items: 0,
        writes: 0,
        written,
    }
}

// Checks a plan of this many tasks, whose spaces have no fault, and returns its counts.
fn check_tasks(plan: &Plan, tasks: u64, mut counted: Counted) -> Result<Counts, MatchFault>
    requires tasks { tasks ≡ length (all_tasks plan.now) }
    requires nothing { IsCounted plan.now counted nothing }
    ensures { MatchResult result (λ c. AllPass plan.now nothing (marks plan.now) × HasCounts plan.now c)
        (IsFirstFailure plan.now nothing (marks plan.now)) }
{
    all_edges_and_items_are_counted();
    check_all(Phase::Connecting, plan, &mut counted)?;
    let (edges, data_edges, writes) = (counted.ins, counted.data_edges, counted.writes);
    check_all(Phase::Matching, plan, &mut counted)?;
    Ok(Counts {
        tasks,
        roots: root_count(plan, tasks),
        edges,
        data_edges,
        writes,
    })
}

// Checks a plan and returns its counts. Most consistent plans are accepted in one walk. For any other plan, the two
// phases find the first fault.
fn check_plan(alloc: Global, plan: &Plan) -> Result<Counts, MatchRefusal>
    ensures consistent { IfOk result (λ counts. IsConsistent plan.now × HasCounts plan.now counts) }
    ensures refused { IfErr result (IsRefusalOf plan.now) }
{
    a_plan_that_passes_is_consistent();
    all_tasks_are_listed();
    let tasks = match space_size(plan.spaces.as_slice()) {
        Ok(tasks) => tasks,
        Err(fault) => return Err(MatchRefusal::Fault(space_fault(fault))),
    };
    match accepts(alloc, plan, tasks) {
        Ok(Some(counts)) => return Ok(counts),
        Ok(None) => (),
        Err(_) => return Err(MatchRefusal::OutOfMemory),
    }
    let Ok(written) = PlaceSet::new(alloc, plan.colls.as_slice()) else {
        return Err(MatchRefusal::OutOfMemory);
    };
    match check_tasks(plan, tasks, nothing_counted(written)) {
        Ok(counts) => Ok(counts),
        Err(fault) => Err(MatchRefusal::Fault(fault)),
    }
}

/// Returns the plan as a consistent one, with its counts. Otherwise returns the first fault, or out of memory, with the
/// plan unchanged. The time grows with the numbers of tasks and edges; it takes a byte of memory for each place of a
/// collection.
pub fn match_edges(alloc: Global, plan: Plan) -> Result<Matched, (MatchRefusal, Plan)>
    ensures found { IfOk result (λ m. (m ≡ plan) × IsConsistent plan) }
    ensures back { IfErr result (λ (refusal, back). back ≡ plan) }
    ensures fault { (f : MatchFaultValue) (p : PlanValue) → result ≡ Err (refusal.Fault f, p) → IsFirstFault plan f }
    ensures only_inconsistent { IsConsistent plan → (f : MatchFaultValue) (p : PlanValue)
        → result ≡ Err (refusal.Fault f, p) → ⊥ }
    // A plan with a first fault is refused with it, unless memory runs out.
    ensures refused { (f : MatchFaultValue) → IsFirstFault plan f
        → (result ≡ Err (refusal.Fault f, plan)) ⊎ (result ≡ Err (refusal.OutOfMemory, plan)) }
{
    a_consistent_plan_has_no_fault();
    match check_plan(alloc, &plan) {
        Ok(counts) => Ok(Matched::trusted(plan, counts)),
        Err(refusal) => Err((refusal, plan)),
    }
}
