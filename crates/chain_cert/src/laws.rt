//! Laws of greatest legal orders.

ghost use Rattle.std.specs.Prelude.{List};
ghost use Rattle.ptg_base.specs.Lists.{IsIn};
ghost use Rattle.ptg_base.specs.Task.{Task};
ghost use Rattle.ptg_base.specs.declared.edge.Edge.{Edge};
ghost use Rattle.plan_core.specs.declared.plan.Plan.{Plan};
ghost use Rattle.dep_iter.specs.Tasks.{IsTask};
ghost use Rattle.dep_iter.specs.Edges.{in_edges};
ghost use Rattle.chain_cert.specs.Greatest.{IsGreatestOrder};

/// A law: each task outside a greatest legal order has an edge into it whose source is outside too.
pub fn a_task_outside_has_a_source_outside()
    ensures { (P : Plan) (ts : List Task) (t : Task) → IsGreatestOrder P ts → IsTask P t → (IsIn t ts → ⊥)
        → (e : Edge) × IsIn e (in_edges P t) × (IsIn e.from ts → ⊥) }
{}
