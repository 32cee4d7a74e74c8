//! Laws of ties.

ghost use Rattle.std.specs.Prelude.{◌≡◌, filter_map};
ghost use Rattle.ptg_base.specs.Task.{Task};
ghost use Rattle.term_core.specs.declared.direction.Direction.TheVariants.{In, Out};
ghost use Rattle.plan_core.specs.declared.plan.Plan.{Plan};
ghost use Rattle.dep_iter.specs.Edges as edges;
ghost use Rattle.dep_iter.specs.Items as items;
ghost use Rattle.edge_walk.specs.Ties.{edge_by_in, item_by_out, ties};

/// A law: the edges into a task are the ties of its in dependences that name tasks, in the same order. The items that
/// it sends are the ties of its out dependences that name tasks or places, in the same order.
pub fn ties_are_edges()
    ensures ins { (P : Plan) (t : Task) → filter_map (edge_by_in t) (ties P t In) ≡ edges.in_edges P t }
    ensures outs { (P : Plan) (t : Task) → filter_map (item_by_out t) (ties P t Out) ≡ items.items P t }
{}
