//! Whether one walk over the tasks of a job accepts it, beside the verdict on the job.

use dep_iter::all_tasks_are_listed;
use edge_match::accepts;
use job_stages::JobVerdict;
use plan_core::Plan;
use range_space::space_size;
use row_files::{Printed, Why};
use std::alloc::Global;

/// Whether the walk accepts the job, and the verdict: `consistent`, or the code of the job's first fault.
pub fn shown(alloc: Global, verdict: &JobVerdict) -> Result<Printed, Why> {
    let mut text = String::new(alloc);
    match verdict {
        JobVerdict::Consistent(matched, _) => {
            add_answer(alloc, &mut text, matched.plan())?;
            text.push_str("consistent\n")?;
        }
        JobVerdict::Inconsistent(plan, fault) => {
            add_answer(alloc, &mut text, plan)?;
            write!(text, "{:?}\n", fault.code)?;
        }
        _ => return Err(Why("a job without a plan")),
    }
    Ok(Printed {
        text: text.into_bytes(),
        status: 0,
    })
}

// Adds whether the walk accepts the plan.
fn add_answer(alloc: Global, text: &mut String, plan: &Plan) -> Result<(), Why> {
    if is_accepted(alloc, plan)? {
        text.push_str("accepted, ")?;
    } else {
        text.push_str("not accepted, ")?;
    }
    Ok(())
}

/// Whether the walk accepts the plan. A plan whose spaces have a fault is not walked, and not accepted.
pub fn is_accepted(alloc: Global, plan: &Plan) -> Result<bool, Why> {
    all_tasks_are_listed();
    let Ok(tasks) = space_size(plan.spaces.as_slice()) else {
        return Ok(false);
    };
    Ok(accepts(alloc, plan, tasks)?.is_some())
}
