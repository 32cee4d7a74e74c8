//! An order that grows as edges come.

ghost use Rattle.std.specs.Prelude.{[], ◌∷◌, IfOk, OnOk, List};
ghost use Rattle.ptg_base.specs.declared.edge.Edge.{Edge as EdgeValue};
ghost use Rattle.dep_iter.specs.Items as items;
ghost use Rattle.chain_cert.specs.Growing.{GrowsBy, HasGrown, IsNext, MayCome};

use crate::lacking::note_edge;
use crate::roots::roots_of;
use dep_iter::{Matched, out_edges};
use indexmap::IndexMap;
use ptg_base::{Edge, OutOfMemory, TaskId};
use std::alloc::Global;

// The tasks in their order, and how many edges each of the others lacks, if an edge into it has come.
#[derive(Drop)]
pub(crate) struct OrderBuilder {
    pub(crate) order: Vec<TaskId>,
    pub(crate) lacking: IndexMap<TaskId, u32>,
}

// The order before an edge has come: the tasks that no edge goes into.
pub(crate) fn start(alloc: Global, m: &Matched) -> Result<OrderBuilder, OutOfMemory>
    ensures { IfOk result (λ builder. HasGrown m.now [] builder.order.items builder.lacking.entries) }
{
    m.plan_is_consistent();
    let order = roots_of(alloc, m)?;
    Ok(OrderBuilder {
        order,
        lacking: IndexMap::new(alloc),
    })
}

// Lets an edge come to its target, which joins the order if it lacks no other edge.
fn let_come(builder: &mut OrderBuilder, m: &Matched, edge: &Edge) -> Result<(), OutOfMemory>
    requires { (came : List EdgeValue) × HasGrown m.now came builder.old.order.items builder.old.lacking.entries
        × MayCome m.now came builder.old.order.items edge.now }
    ensures { OnOk result
        (GrowsBy m.now (edge.now ∷ []) builder.old.order.items builder.old.lacking.entries builder.new.order.items
        builder.new.lacking.entries) }
{
    m.plan_is_consistent();
    let left = note_edge(&mut builder.lacking, m, &edge.to)?;
    if left == 0 {
        builder.order.push(edge.to.copy())?;
    }
    Ok(())
}

// Lets all edges out of a task of the order come.
pub(crate) fn pass(builder: &mut OrderBuilder, m: &Matched, t: &TaskId) -> Result<(), OutOfMemory>
    requires { (came : List EdgeValue) × HasGrown m.now came builder.old.order.items builder.old.lacking.entries
        × IsNext m.now came builder.old.order.items t.now }
    ensures { OnOk result
        (GrowsBy m.now (items.out_edges m.now t.now) builder.old.order.items builder.old.lacking.entries
        builder.new.order.items builder.new.lacking.entries) }
{
    for edge in out_edges(m.plan(), t) {
        let_come(builder, m, &edge)?;
    }
    Ok(())
}
