//! The law of what items carry.

ghost use Rattle.std.specs.Prelude.{◌≡◌, ℤ, IsFalse, IsTrue, List, None, Some};
ghost use Rattle.ptg_base.specs.declared.edge.Edge.{Edge};
ghost use Rattle.ptg_base.specs.declared.edge.Item.TheVariants as item;
ghost use Rattle.ptg_base.specs.declared.edge.WriteBack.{WriteBack};
ghost use Rattle.plan_core.specs.Kinds.{flow_of, is_data};
ghost use Rattle.plan_core.specs.declared.flow.FlowPlan.{FlowPlan};
ghost use Rattle.plan_core.specs.declared.plan.Plan.{Plan};
ghost use Rattle.coll_data.specs.Data.{Data};
ghost use Rattle.coll_data.specs.WellMade.{IsWellMade};
ghost use Rattle.plan_data.specs.Fit.{DataFit};
ghost use Rattle.dep_iter.specs.Consistent.{IsConsistent};
ghost use Rattle.dep_shard.specs.Content.{IsTileOf};
ghost use Rattle.flow_meaning.specs.Backward.{ended};
ghost use Rattle.flow_meaning.specs.Ending.{output_tile};
ghost use Rattle.flow_meaning.specs.Machine.{MachineState, MaySend};
ghost use Rattle.flow_meaning.specs.Sound.{IsSoundState};

/// A law: an edge that may be sent goes to a flow. To a data flow it carries a tile of the flow's type, to a CTL flow
/// none; a write-back has a tile of the type of the flow that it comes from.
pub fn items_carry_tiles_of_their_types()
    ensures flow { (P : Plan) (G : Data) (S : MachineState) (e : Edge) → IsConsistent P → IsSoundState P G S
        → MaySend P G S (item.Edge e) → (f : FlowPlan) × (flow_of P.classes e.to.class e.in_flow ≡ Some f) }
    ensures tile { (P : Plan) (G : Data) (S : MachineState) (e : Edge) (f : FlowPlan) → IsConsistent P
        → DataFit P G → IsWellMade G → IsSoundState P G S → MaySend P G S (item.Edge e)
        → flow_of P.classes e.to.class e.in_flow ≡ Some f → IsTrue (is_data (Some f.kind))
        → (x : List ℤ) × (output_tile (ended P G e.from) e.out_flow ≡ Some x) × IsTileOf P.elems f.datatype x }
    ensures order { (P : Plan) (G : Data) (S : MachineState) (e : Edge) (f : FlowPlan) → IsConsistent P
        → IsSoundState P G S → MaySend P G S (item.Edge e) → flow_of P.classes e.to.class e.in_flow ≡ Some f
        → IsFalse (is_data (Some f.kind)) → output_tile (ended P G e.from) e.out_flow ≡ None }
    ensures write { (P : Plan) (G : Data) (S : MachineState) (w : WriteBack) → IsConsistent P
        → DataFit P G → IsWellMade G → IsSoundState P G S → MaySend P G S (item.Write w)
        → (f : FlowPlan) × (x : List ℤ) × (flow_of P.classes w.from.class w.flow ≡ Some f)
        × (output_tile (ended P G w.from) w.flow ≡ Some x) × IsTileOf P.elems f.datatype x }
{}
