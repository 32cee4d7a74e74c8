//! Items that a task sends, each built in place.

ghost use Rattle.std.specs.Prelude.{◌≡◌, ◌≤◌, length, Some};
ghost use Rattle.ptg_base.specs.Limits.{most_params};
ghost use Rattle.ptg_base.specs.declared.edge.Item.TheVariants as item;
ghost use Rattle.dep_iter.specs.Arguments as arguments;
ghost use Rattle.dep_iter.specs.Items.{write_back};
ghost use Rattle.dep_iter.specs.Links.{link};
ghost use Rattle.dep_iter.specs.Walking.{link_item};

use crate::place::place_of;
use ptg_base::{Edge, Item, TaskId, WriteBack};
use term_core::Expr;

// The edge from flow `near` of a task to flow `far_flow` of the task of this class with these parameters.
pub(crate) fn link_item(
    task: &TaskId,
    near: u8,
    class: u32,
    far_flow: u8,
    params: &[i64],
) -> Option<Item>
    requires { length params.now ≤ most_params }
    ensures { result ≡ Some (link_item task.now (link near class far_flow params.now)) }
{
    Some(Item::Edge(Edge {
        from: task.copy(),
        out_flow: near,
        to: TaskId::new(class, params),
        in_flow: far_flow,
    }))
}

// The write-back from a flow of a task to the place that indices name under these locals.
pub(crate) fn write_item(
    task: &TaskId,
    flow: u8,
    coll: u32,
    indices: &[Expr],
    env: &[i64],
) -> Option<Item>
    ensures { result ≡ Some (item.Write (write_back task.now flow (arguments.place_of coll indices.now env.now))) }
{
    Some(Item::Write(WriteBack {
        from: task.copy(),
        flow,
        place: place_of(coll, indices, env),
    }))
}
