//! What a task may send.

ghost use Rattle.std.specs.Prelude.{◌≡◌, ◌↔◌, IsTrue};
ghost use Rattle.ptg_base.specs.Lists.{IsIn};
ghost use Rattle.dep_iter.specs.Items as items;
ghost use Rattle.dep_iter.specs.Tasks.{IsTask};
ghost use Rattle.flow_meaning.specs.Machine as machine;

use dep_iter::{LentEdge, TaskAt, WriteBacks, write_backs};
use plan_core::Plan;
use ptg_base::{Edge, Item, Place, TaskId, WriteBack, items_compare_field_by_field};
use range_space::Numbers;
use term_core::Direction;

// A copy of an item.
pub(crate) fn copy_of_item(item: &Item) -> Item
    ensures { result ≡ item.now }
{
    match item {
        Item::Edge(e) => Item::Edge(Edge {
            from: e.from.copy(),
            out_flow: e.out_flow,
            to: e.to.copy(),
            in_flow: e.in_flow,
        }),
        Item::Write(w) => Item::Write(WriteBack {
            from: w.from.copy(),
            flow: w.flow,
            place: Place {
                coll: w.place.coll,
                i: w.place.i,
                j: w.place.j,
            },
        }),
    }
}

// The task that sends an item.
pub(crate) fn sender(item: &Item) -> &TaskId
    ensures { result.now ≡ machine.sender item.now }
{
    match item {
        Item::Edge(e) => &e.from,
        Item::Write(w) => &w.from,
    }
}

// The number of the flow that an item is sent by.
pub(crate) fn item_flow(item: &Item) -> u8
    ensures { result ≡ items.item_flow item.now }
{
    match item {
        Item::Edge(e) => e.out_flow,
        Item::Write(w) => w.flow,
    }
}

// Whether the write-back is one of those that are left.
fn is_left(left: &mut WriteBacks, write: &WriteBack) -> bool
    ensures { IsTrue result ↔ IsIn write.now left.old }
{
    let Some(other) = left.next() else {
        return false;
    };
    items_compare_field_by_field();
    if other == *write {
        return true;
    }
    is_left(left, write)
}

// Whether the task that the item names as its sender has this item.
pub(crate) fn is_item(plan: &Plan, item: &Item) -> bool
    requires { IsTask plan.now (machine.sender item.now) }
    ensures { IsTrue result ↔ IsIn item.now (items.items plan.now (machine.sender item.now)) }
{
    match item {
        Item::Edge(e) => {
            let mut room = Numbers::new();
            let from = TaskAt::of(plan, &e.from, &mut room);
            from.has_edge(Direction::Out, &LentEdge::of(e))
        }
        Item::Write(w) => is_left(&mut write_backs(plan, &w.from), w),
    }
}
