//! Laws about the order of tasks and items.

ghost use Rattle.std.specs.Cmp.{IsTotalOrder};
ghost use Rattle.ptg_base.specs.Task.{Task};
ghost use Rattle.ptg_base.specs.TaskComparing.{task_cmp, ComparesInTaskOrder};
ghost use Rattle.ptg_base.specs.ItemComparing.{place_cmp, edge_cmp, write_back_cmp, item_cmp, IsCompared};

use crate::edge::{Edge, Item, WriteBack};
use crate::place::Place;

/// A law: comparing tasks is a total order, and that order is task order.
pub fn tasks_compare_in_task_order()
    ensures total { IsTotalOrder task_cmp }
    ensures task_order { (a b : Task) → ComparesInTaskOrder a b (task_cmp a b) }
{}

/// A law: places, edges, write-backs and items are equal if and only if they are the same, and the first field that
/// differs orders them.
pub fn items_compare_field_by_field()
    ensures places { IsCompared ⟦<Place as PartialEq>⟧.eq ⟦<Place as Ord>⟧.cmp place_cmp }
    ensures edges { IsCompared ⟦<Edge as PartialEq>⟧.eq ⟦<Edge as Ord>⟧.cmp edge_cmp }
    ensures write_backs { IsCompared ⟦<WriteBack as PartialEq>⟧.eq ⟦<WriteBack as Ord>⟧.cmp write_back_cmp }
    ensures items { IsCompared ⟦<Item as PartialEq>⟧.eq ⟦<Item as Ord>⟧.cmp item_cmp }
{}
