//! Laws of the reserve: each event keeps it for every shard, and it is enough for each call.

ghost use Rattle.std.specs.Prelude.{◌≡◌, ◌<◌, ℕ, ℤ, IsTrue, List, None, Some, if◌then◌else◌, is_some, slice_index};
ghost use Rattle.ptg_base.specs.Entry.{Entry, FlowTile};
ghost use Rattle.ptg_base.specs.Task.{Task};
ghost use Rattle.ptg_base.specs.declared.edge.Edge.{Edge};
ghost use Rattle.ptg_base.specs.declared.edge.Item.TheVariants as item;
ghost use Rattle.ptg_base.specs.declared.edge.Item.{Item};
ghost use Rattle.ptg_base.specs.declared.edge.WriteBack.{WriteBack};
ghost use Rattle.plan_core.specs.Kinds.{flow_of};
ghost use Rattle.plan_core.specs.declared.plan.Plan.{Plan};
ghost use Rattle.coll_data.specs.Data.{Data};
ghost use Rattle.dep_iter.specs.Consistent.{IsConsistent};
ghost use Rattle.dep_shard.specs.Content.{Content, KeepsAllButWritten, KeepsEntriesAndWritten, KeepsSpares, Takes, Updates, Uses, entry_of};
ghost use Rattle.flow_meaning.specs.Backward.{ended};
ghost use Rattle.flow_meaning.specs.Ending.{output_tile};
ghost use Rattle.flow_meaning.specs.Machine.{MayClaim, MaySend};
ghost use Rattle.flow_meaning.specs.Sound.{IsSoundState};
ghost use Rattle.shard_meaning.specs.Moment.{IsSoundMoment, Moment, run_count, with_claim, with_end, with_send};
ghost use Rattle.shard_meaning.specs.Reserve.{HasReserve, has_type};
ghost use Rattle.shard_meaning.specs.Share.{Placement};

/// A law: a claim keeps the reserve of the shard from which its entry is taken, which uses no spare, and of every other
/// shard.
pub fn a_claim_keeps_the_reserve()
    ensures here { (P : Plan) (of : Placement) (k : ℕ) (R : Moment) (t : Task) (y z : Content) (tiles : List FlowTile)
        → MayClaim P R.state t → Takes y z t tiles → KeepsSpares y.spare z.spare → HasReserve P of k R y
        → HasReserve P of k (with_claim R t) z }
    ensures away { (P : Plan) (of : Placement) (k : ℕ) (R : Moment) (t : Task) (y : Content) → MayClaim P R.state t
        → HasReserve P of k R y → HasReserve P of k (with_claim R t) y }
{}

/// A law: a send of an edge keeps the reserve of its target's shard and of every other shard. The target's shard uses
/// an entry if the target has none, and a tile of the flow's type if the edge carries one.
pub fn a_send_of_an_edge_keeps_the_reserve()
    ensures here { (P : Plan) (G : Data) (of : Placement) (k : ℕ) (R : Moment) (e : Edge) (y z : Content) (w : Entry)
        (datatype : ℕ)
        → IsConsistent P → IsSoundState P G R.state → MaySend P G R.state (item.Edge e) → of e.to ≡ k
        → Updates y.entries z.entries e.to (Some w)
        → IsTrue (has_type datatype (flow_of P.classes e.to.class e.in_flow))
        → Uses y.spare z.spare (if is_some (entry_of y e.to) then 0 else 1)
        (if is_some (output_tile (ended P G e.from) e.out_flow) then Some datatype else None) 0 0
        → HasReserve P of k R y → HasReserve P of k (with_send P G R (item.Edge e)) z }
    ensures away { (P : Plan) (G : Data) (of : Placement) (k : ℕ) (R : Moment) (i : Item) (y : Content)
        → MaySend P G R.state i → HasReserve P of k R y → HasReserve P of k (with_send P G R i) y }
{}

/// A law: a send of a write-back keeps the reserve of its task's shard and of every other shard. The task's shard uses
/// a place for a write-back and a tile of the flow's type.
pub fn a_send_of_a_write_back_keeps_the_reserve()
    ensures here { (P : Plan) (G : Data) (of : Placement) (k : ℕ) (R : Moment) (w : WriteBack) (y z : Content)
        (datatype : ℕ)
        → IsConsistent P → IsSoundState P G R.state → MaySend P G R.state (item.Write w) → of w.from ≡ k
        → KeepsAllButWritten y z → IsTrue (has_type datatype (flow_of P.classes w.from.class w.flow))
        → Uses y.spare z.spare 0 (Some datatype) 1 0 → HasReserve P of k R y
        → HasReserve P of k (with_send P G R (item.Write w)) z }
    ensures away { (P : Plan) (G : Data) (of : Placement) (k : ℕ) (R : Moment) (i : Item) (y : Content)
        → MaySend P G R.state i → HasReserve P of k R y → HasReserve P of k (with_send P G R i) y }
{}

/// A law: the end of a task keeps the reserve of its shard and of every other shard. Its shard uses a row if the task
/// traps, and otherwise no spare.
pub fn an_end_keeps_the_reserve()
    ensures end { (P : Plan) (of : Placement) (k : ℕ) (R : Moment) (t : Task) (y z : Content) → 0 < run_count R t
        → KeepsEntriesAndWritten y z → KeepsSpares y.spare z.spare → HasReserve P of k R y
        → HasReserve P of k (with_end R t) z }
    ensures trap { (P : Plan) (G : Data) (of : Placement) (k : ℕ) (R : Moment) (t : Task) (y z : Content)
        → IsSoundMoment P G R → 0 < run_count R t → of t ≡ k → KeepsEntriesAndWritten y z
        → Uses y.spare z.spare 0 None 0 1 → HasReserve P of k R y → HasReserve P of k (with_end R t) z }
    ensures away { (P : Plan) (of : Placement) (k : ℕ) (R : Moment) (t : Task) (y : Content) → 0 < run_count R t
        → HasReserve P of k R y → HasReserve P of k (with_end R t) y }
{}

/// A law: a shard with its reserve has what each call needs. An edge needs an entry if its target has none, and a tile
/// of its type if it carries one. A write-back needs a place and a tile, and a task that runs needs a row.
pub fn the_reserve_is_enough()
    ensures entry { (P : Plan) (G : Data) (of : Placement) (k : ℕ) (R : Moment) (e : Edge) (y : Content)
        → IsConsistent P → IsSoundState P G R.state → MaySend P G R.state (item.Edge e) → of e.to ≡ k
        → HasReserve P of k R y → entry_of y e.to ≡ None → 0 < y.spare.entries }
    ensures edge_tile { (P : Plan) (G : Data) (of : Placement) (k : ℕ) (R : Moment) (e : Edge) (y : Content)
        (datatype : ℕ) (x : List ℤ)
        → IsConsistent P → IsSoundState P G R.state → MaySend P G R.state (item.Edge e) → of e.to ≡ k
        → HasReserve P of k R y → IsTrue (has_type datatype (flow_of P.classes e.to.class e.in_flow))
        → output_tile (ended P G e.from) e.out_flow ≡ Some x → 0 < slice_index y.spare.tiles datatype }
    ensures write { (P : Plan) (G : Data) (of : Placement) (k : ℕ) (R : Moment) (w : WriteBack) (y : Content)
        → IsConsistent P → IsSoundState P G R.state → MaySend P G R.state (item.Write w) → of w.from ≡ k
        → HasReserve P of k R y → 0 < y.spare.writes }
    ensures write_tile { (P : Plan) (G : Data) (of : Placement) (k : ℕ) (R : Moment) (w : WriteBack) (y : Content)
        (datatype : ℕ)
        → IsConsistent P → IsSoundState P G R.state → MaySend P G R.state (item.Write w) → of w.from ≡ k
        → HasReserve P of k R y → IsTrue (has_type datatype (flow_of P.classes w.from.class w.flow))
        → 0 < slice_index y.spare.tiles datatype }
    ensures trap { (P : Plan) (G : Data) (of : Placement) (k : ℕ) (R : Moment) (t : Task) (y : Content)
        → IsSoundMoment P G R → 0 < run_count R t → of t ≡ k → HasReserve P of k R y → 0 < y.spare.traps }
{}
