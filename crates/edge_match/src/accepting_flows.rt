//! The flows of a task.

ghost use Rattle.std.specs.Prelude.{IsTrue, drop};
ghost use Rattle.std.specs.Bool.{OnTrue};
ghost use Rattle.std.specs.List.{list_all};
ghost use Rattle.dep_iter.specs.Tasks.{flows_of};
ghost use Rattle.dep_iter.specs.Well.{is_well_flow};
ghost use Rattle.edge_match.specs.Tallies.{Accepts};

use crate::accepted_flow::FlowAt;
use crate::sending::send_all;
use crate::taking::take_from;
use crate::tally::Tally;
use dep_iter::TaskAt;

// Whether the flows of a task from this number on may start from their sources and write to their places. Counts the
// edges into them and what they send.
pub(crate) fn accept_flows(task: &TaskAt, number: u8, tally: &mut Tally) -> bool
    requires { IsTrue (list_all (is_well_flow task.now.locals.now) (flows_of task.now.plan.now task.now.task.now)) }
    ensures { OnTrue result (Accepts task.now.plan.now task.now.task.now task.now.locals.now tally.old tally.new number
        (drop number (flows_of task.now.plan.now task.now.task.now))) }
{
    let Some(flow) = task.flow(number) else {
        return true;
    };
    let before = tally.outs.items();
    if !send_all(
        task.plan,
        flow.outs.as_slice(),
        task.locals,
        &mut tally.outs,
    ) {
        return false;
    }
    let at = FlowAt {
        task: &*task,
        number,
        flow,
        sends_nothing: tally.outs.items() == before,
    };
    if !take_from(&at, 0, &mut tally.ins) {
        return false;
    }
    accept_flows(task, number + 1, tally)
}
