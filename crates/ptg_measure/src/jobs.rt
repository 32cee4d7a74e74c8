//! Jobs of a given size and their plans, made from texts.
ghost use Rattle.std.specs.Prelude.{IfOk};
ghost use Rattle.plan_data.specs.Fit.{DataFit};

use crate::count::Failure;
use coll_data::Given;
use dep_iter::Matched;
use job_stages::{given_of, job_of_texts, tree_of};
use plan_core::Plan;
use ptg_base::MOST_ROWS;
use std::alloc::Global;
use type_check::{check, globals_of, missing};

// One task with an edge to and an edge from each of the others, which are numbered from 0 to LAST.
const STAR: &[u8] = b"D
LAST

hub(h)
h = 0 .. 0
: D(0)
CTL X -> X spoke(0 .. LAST)
CTL Y <- Y spoke(0 .. LAST)
BODY
END

spoke(k)
k = 0 .. LAST
: D(0)
CTL X <- X hub(0)
CTL Y -> Y hub(0)
BODY
END
";

// Tasks in a line: each but the last is the source of an edge into the next.
const LINE: &[u8] = b"D
LAST

task(k)
k = 0 .. LAST
: D(0)
CTL X <- k > 0 ? X task(k - 1)
      -> k < LAST ? X task(k + 1)
BODY
END
";

// Tasks in a ring: the same, and the last is the source of an edge into the first.
const RING: &[u8] = b"D
LAST

task(k)
k = 0 .. LAST
: D(0)
CTL X <- X task(k > 0 ? k - 1 : LAST)
      -> X task(k < LAST ? k + 1 : 0)
BODY
END
";

// One task with an edge to each of the others, which are numbered from 0 to LAST. Each of the others also waits for
// itself.
const WAITING: &[u8] = b"D
LAST

hub(h)
h = 0 .. 0
: D(0)
CTL X -> X spoke(0 .. LAST)
BODY
END

spoke(k)
k = 0 .. LAST
: D(0)
CTL X <- X hub(0)
CTL Y <- Y spoke(k)
      -> Y spoke(k)
BODY
END
";

// The plan of a JDF and a data file.
fn plan_of(alloc: Global, jdf: &[u8], table: &[u8]) -> Result<Plan, Failure> {
    let tree = tree_of(alloc, jdf)?;
    let given = given_of(alloc, table)?;
    let globals = globals_of(alloc, &tree, &given)?;
    if missing(&tree, &globals) {
        return Err(Failure::NotWellMade);
    }
    Ok(check(alloc, &tree, &given, &globals)?)
}

/// The plan of a job with the shape of a tiled Cholesky factorization with this many rows of tiles.
pub fn cholesky(alloc: Global, size: u32) -> Result<Plan, Failure> {
    if size < 1 || size > MOST_ROWS {
        return Err(Failure::TooLarge);
    }
    let (jdf, table) = job_gen::make(alloc, size)?;
    plan_of(alloc, jdf.bytes(), table.bytes())
}

// The text of a data file in which LAST is one less than this count.
fn table_up_to(alloc: Global, count: u32) -> Result<String, Failure> {
    let last = i64::from(count) - 1;
    Ok(format!(in alloc; "elems,1\nint,LAST,{last}\ncoll,D,1\n")?)
}

// The plan of a JDF in which LAST is one less than this count.
fn plan_up_to(alloc: Global, jdf: &[u8], count: u32) -> Result<Plan, Failure> {
    let table = table_up_to(alloc, count)?;
    plan_of(alloc, jdf, table.as_bytes())
}

// The job of a JDF in which LAST is one less than this count.
fn job_up_to(alloc: Global, jdf: &[u8], count: u32) -> Result<(Matched, Given), Failure>
    ensures { IfOk result (λ (matched, given). DataFit matched given) }
{
    let table = table_up_to(alloc, count)?;
    job_of_texts(alloc, jdf, table.as_bytes())?.ok_or(Failure::NotWellMade)
}

/// The plan of one task with an edge to and an edge from each of this many others.
pub fn star(alloc: Global, others: u32) -> Result<Plan, Failure> {
    plan_up_to(alloc, STAR, others)
}

/// The plan of this many tasks in a line.
pub fn line(alloc: Global, tasks: u32) -> Result<Plan, Failure> {
    plan_up_to(alloc, LINE, tasks)
}

/// The plan of this many tasks in a ring.
pub fn ring(alloc: Global, tasks: u32) -> Result<Plan, Failure> {
    plan_up_to(alloc, RING, tasks)
}

/// The job of this many tasks in a line.
pub fn line_job(alloc: Global, tasks: u32) -> Result<(Matched, Given), Failure>
    ensures { IfOk result (λ (matched, given). DataFit matched given) }
{
    job_up_to(alloc, LINE, tasks)
}

/// The job of one task that runs and this many others that wait forever.
pub fn waiting_job(alloc: Global, others: u32) -> Result<(Matched, Given), Failure>
    ensures { IfOk result (λ (matched, given). DataFit matched given) }
{
    job_up_to(alloc, WAITING, others)
}
