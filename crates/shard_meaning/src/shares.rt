//! Laws of what a shard holds: each event changes the shard that it belongs to as the call does, and no other shard.

ghost use Rattle.std.specs.Prelude.{◌≡◌, ◌≢◌, ◌<◌, ◌++◌, ℕ, ℤ, Err, IsTrue, List, Some, ◌∷◌, []};
ghost use Rattle.ptg_base.specs.Entry.{FlowTile};
ghost use Rattle.ptg_base.specs.Task.{Task};
ghost use Rattle.ptg_base.specs.declared.edge.Edge.{Edge};
ghost use Rattle.ptg_base.specs.declared.edge.Item.TheVariants as item;
ghost use Rattle.ptg_base.specs.declared.edge.WriteBack.{WriteBack};
ghost use Rattle.term_core.specs.declared.trap.Trap.{Trap};
ghost use Rattle.plan_core.specs.declared.plan.Plan.{Plan};
ghost use Rattle.coll_data.specs.Data.{Data};
ghost use Rattle.dep_iter.specs.Consistent.{IsConsistent};
ghost use Rattle.dep_shard.specs.Content.{Content, Ends, IsUnchanged, KeepsAllButEntries, KeepsAllButWritten, KeepsEntriesAndWritten, KeepsSpares, Takes, Updates};
ghost use Rattle.flow_meaning.specs.Backward.{ended};
ghost use Rattle.flow_meaning.specs.Ending.{has_outputs, output_tile};
ghost use Rattle.flow_meaning.specs.Machine.{MaySend};
ghost use Rattle.flow_meaning.specs.Sound.{IsSoundState};
ghost use Rattle.shard_meaning.specs.Moment.{Moment, run_count, with_claim, with_end, with_send};
ghost use Rattle.shard_meaning.specs.Reserve.{HasReserve};
ghost use Rattle.shard_meaning.specs.Share.{IsShardOf, Placement, entry_after};

/// A law: a claim changes the shard of its task as the call that takes the ready entry out does, and no other shard.
pub fn a_claim_changes_its_own_shard()
    ensures here { (P : Plan) (G : Data) (of : Placement) (k : ℕ) (R : Moment) (t : Task) (y z : Content)
        (tiles : List FlowTile)
        → IsConsistent P → IsSoundState P G R.state → of t ≡ k → Takes y z t tiles → IsShardOf P G of k R y
        → IsShardOf P G of k (with_claim R t) z }
    ensures away { (P : Plan) (G : Data) (of : Placement) (k : ℕ) (R : Moment) (t : Task) (y : Content) → IsConsistent P
        → IsSoundState P G R.state → of t ≢ k → IsShardOf P G of k R y → IsShardOf P G of k (with_claim R t) y }
{}

/// A law: a send of an edge changes the shard of its target as the call that notes the arrival does, with the tile that
/// the edge's task leaves. It changes no other shard.
pub fn a_send_of_an_edge_changes_its_own_shard()
    ensures here { (P : Plan) (G : Data) (of : Placement) (k : ℕ) (R : Moment) (e : Edge) (y z : Content)
        → IsConsistent P → IsSoundState P G R.state → MaySend P G R.state (item.Edge e) → of e.to ≡ k
        → Updates y.entries z.entries e.to (Some (entry_after P e (output_tile (ended P G e.from) e.out_flow) y))
        → KeepsAllButEntries y z → IsShardOf P G of k R y → IsShardOf P G of k (with_send P G R (item.Edge e)) z }
    ensures away { (P : Plan) (G : Data) (of : Placement) (k : ℕ) (R : Moment) (e : Edge) (y : Content) → IsConsistent P
        → IsSoundState P G R.state → MaySend P G R.state (item.Edge e) → of e.to ≢ k → IsShardOf P G of k R y
        → IsShardOf P G of k (with_send P G R (item.Edge e)) y }
{}

/// A law: a send of a write-back changes the shard of its task as the call that keeps the tile does, and no other
/// shard.
pub fn a_send_of_a_write_back_changes_its_own_shard()
    ensures here { (P : Plan) (G : Data) (of : Placement) (k : ℕ) (R : Moment) (w : WriteBack) (tile : List ℤ)
        (y z : Content)
        → IsConsistent P → IsSoundState P G R.state → MaySend P G R.state (item.Write w) → of w.from ≡ k
        → output_tile (ended P G w.from) w.flow ≡ Some tile → z.written ≡ y.written ++ (w, tile) ∷ []
        → KeepsAllButWritten y z → IsShardOf P G of k R y → IsShardOf P G of k (with_send P G R (item.Write w)) z }
    ensures away { (P : Plan) (G : Data) (of : Placement) (k : ℕ) (R : Moment) (w : WriteBack) (y : Content)
        → IsConsistent P → IsSoundState P G R.state → MaySend P G R.state (item.Write w) → of w.from ≢ k
        → IsShardOf P G of k R y → IsShardOf P G of k (with_send P G R (item.Write w)) y }
{}

/// A law: the end of a task changes its shard as the call that ends it does, with a row if the task traps, and no other
/// shard.
pub fn an_end_changes_its_own_shard()
    ensures end { (P : Plan) (G : Data) (of : Placement) (k : ℕ) (R : Moment) (t : Task) (y z : Content)
        → 0 < run_count R t → of t ≡ k → IsTrue (has_outputs (ended P G t)) → Ends y z → KeepsEntriesAndWritten y z
        → z.trapped ≡ y.trapped → IsShardOf P G of k R y → IsShardOf P G of k (with_end R t) z }
    ensures trap { (P : Plan) (G : Data) (of : Placement) (k : ℕ) (R : Moment) (t : Task) (cause : Trap) (y z : Content)
        → 0 < run_count R t → of t ≡ k → ended P G t ≡ Some (Err cause) → Ends y z → KeepsEntriesAndWritten y z
        → z.trapped ≡ y.trapped ++ (t, cause) ∷ [] → IsShardOf P G of k R y → IsShardOf P G of k (with_end R t) z }
    ensures away { (P : Plan) (G : Data) (of : Placement) (k : ℕ) (R : Moment) (t : Task) (y : Content)
        → 0 < run_count R t → of t ≢ k → IsShardOf P G of k R y → IsShardOf P G of k (with_end R t) y }
{}

/// A law: a shard that is given back without an event, with nothing changed but spares that grew, holds what it held
/// and keeps its reserve.
pub fn nothing_changes_without_an_event()
    ensures share { (P : Plan) (G : Data) (of : Placement) (k : ℕ) (R : Moment) (y z : Content) → IsUnchanged y z
        → IsShardOf P G of k R y → IsShardOf P G of k R z }
    ensures reserve { (P : Plan) (of : Placement) (k : ℕ) (R : Moment) (y z : Content) → IsUnchanged y z
        → KeepsSpares y.spare z.spare → HasReserve P of k R y → HasReserve P of k R z }
{}
