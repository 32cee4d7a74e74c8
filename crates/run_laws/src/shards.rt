//! Laws of moments of a run, and of what shards hold of them and have written.

ghost use Rattle.std.specs.Prelude.{◌≡◌, ℕ, ℤ, List, ◌<◌, ◌≢◌, ◌≤◌, ◌+◌, [], length, ◌↔◌, None, Option, Some};
ghost use Rattle.ptg_base.specs.Entry.{Entry};
ghost use Rattle.ptg_base.specs.Lists.{IsIn};
ghost use Rattle.ptg_base.specs.declared.edge.Item.TheVariants as item;
ghost use Rattle.ptg_base.specs.declared.edge.WriteBack.{WriteBack};
ghost use Rattle.plan_core.specs.declared.plan.Plan.{Plan};
ghost use Rattle.coll_data.specs.Data.{Data};
ghost use Rattle.dep_iter.specs.Consistent.{IsConsistent};
ghost use Rattle.dep_shard.specs.Content.{Content, IsReady, IsWaiting, entry_of};
ghost use Rattle.flow_meaning.specs.Machine.{MaySend, MayClaim, arrived};
ghost use Rattle.flow_meaning.specs.Sound.{IsSoundState};
ghost use Rattle.shard_meaning.specs.Moment.{Moment, IsSoundMoment, opening_moment, run_count, with_claim, with_end, with_send};
ghost use Rattle.shard_meaning.specs.Share.{IsShardOf, Placement, entry_after, entry_found};
ghost use Rattle.ptg_base.specs.Task.{Task};
ghost use Rattle.ptg_base.specs.declared.edge.Item.{Item};
ghost use Rattle.ptg_base.specs.declared.edge.Edge.{Edge};
ghost use Rattle.dep_iter.specs.Edges.{goal};
ghost use Rattle.dep_iter.specs.Tasks.{all_tasks, IsTask};
ghost use Rattle.flow_meaning.specs.Table.{ready_tasks};
ghost use Rattle.shard_meaning.specs.Calm.{IsCalm};
ghost use Rattle.ptg_base.specs.Limits.{most_flows};
ghost use Rattle.dep_iter.specs.Hints.{priority};
ghost use Rattle.dep_shard.specs.Arrivals.{tile_of};

/// A law: the place of a write-back that may be sent was written by no shard.
pub fn a_place_is_written_once()
    ensures { (P : Plan) (G : Data) (of : Placement) (k : ℕ) (R : Moment) (w : WriteBack) (y : Content)
        (p : WriteBack × List ℤ)
        → IsConsistent P → IsSoundState P G R.state → MaySend P G R.state (item.Write w) → IsShardOf P G of k R y
        → IsIn p y.written → p.0.place ≡ w.place → ⊥ }
{}

/// A law: the opening moment is sound, and each event leads from a sound moment to a sound moment.
pub fn events_keep_moments_sound()
    ensures opening { (P : Plan) (G : Data) → IsSoundMoment P G opening_moment }
    ensures claim { (P : Plan) (G : Data) (R : Moment) (t : Task) → IsConsistent P → IsSoundMoment P G R
        → MayClaim P R.state t → IsSoundMoment P G (with_claim R t) }
    ensures send { (P : Plan) (G : Data) (R : Moment) (i : Item) → IsConsistent P → IsSoundMoment P G R
        → MaySend P G R.state i → IsSoundMoment P G (with_send P G R i) }
    ensures end { (P : Plan) (G : Data) (R : Moment) (t : Task) → IsSoundMoment P G R → 0 < run_count R t
        → IsSoundMoment P G (with_end R t) }
{}

/// A law: a claim leaves one ready task fewer. A send makes one more if and only if it sends the last edge into a task.
/// The ready and the claimed tasks are together at most as many as the job has. If no task is ready and none runs, the
/// moment is calm.
pub fn the_ready_tasks_are_counted()
    ensures claim { (P : Plan) (R : Moment) (t : Task) → MayClaim P R.state t
        → length (ready_tasks P (with_claim R t).state) + 1 ≡ length (ready_tasks P R.state) }
    ensures fires { (P : Plan) (G : Data) (R : Moment) (e : Edge) → IsConsistent P → IsSoundState P G R.state
        → MaySend P G R.state (item.Edge e) → arrived P R.state e.to + 1 ≡ goal P e.to
        → length (ready_tasks P (with_send P G R (item.Edge e)).state) ≡ length (ready_tasks P R.state) + 1 }
    ensures waits { (P : Plan) (G : Data) (R : Moment) (e : Edge) → IsConsistent P → IsSoundState P G R.state
        → MaySend P G R.state (item.Edge e) → arrived P R.state e.to + 1 ≢ goal P e.to
        → length (ready_tasks P (with_send P G R (item.Edge e)).state) ≡ length (ready_tasks P R.state) }
    ensures write { (P : Plan) (G : Data) (R : Moment) (w : WriteBack) → IsConsistent P → IsSoundState P G R.state
        → MaySend P G R.state (item.Write w)
        → length (ready_tasks P (with_send P G R (item.Write w)).state) ≡ length (ready_tasks P R.state) }
    ensures at_most { (P : Plan) (G : Data) (R : Moment) → IsSoundState P G R.state
        → length (ready_tasks P R.state) + length R.state.claims ≤ length (all_tasks P) }
    ensures calm { (P : Plan) (R : Moment) → length (ready_tasks P R.state) ≡ 0 → R.running ≡ [] → IsCalm P R }
{}

/// A law: the target of an edge that may be sent is a task that waits for it. Its entry, if it has one, has the goal
/// and the priority of the plan and no tile of the edge's flow yet. The edge makes it ready if and only if it is the
/// last.
pub fn an_edge_finds_its_target()
    ensures target { (P : Plan) (G : Data) (R : Moment) (e : Edge) → IsConsistent P → IsSoundState P G R.state
        → MaySend P G R.state (item.Edge e) → IsTask P e.to × (e.in_flow < most_flows) × (0 < goal P e.to) }
    ensures waits { (P : Plan) (G : Data) (of : Placement) (k : ℕ) (R : Moment) (e : Edge) (y : Content)
        → IsConsistent P → IsSoundState P G R.state → MaySend P G R.state (item.Edge e) → of e.to ≡ k
        → IsShardOf P G of k R y → IsWaiting (entry_found P e y) }
    ensures fires { (P : Plan) (G : Data) (of : Placement) (k : ℕ) (R : Moment) (e : Edge) (y : Content)
        (x : Option (List ℤ))
        → IsConsistent P → IsSoundState P G R.state → MaySend P G R.state (item.Edge e) → of e.to ≡ k
        → IsShardOf P G of k R y
        → IsReady (entry_after P e x y) ↔ (arrived P R.state e.to + 1 ≡ goal P e.to) }
    ensures free { (P : Plan) (G : Data) (of : Placement) (k : ℕ) (R : Moment) (e : Edge) (y : Content) → IsConsistent P
        → IsSoundState P G R.state → MaySend P G R.state (item.Edge e) → of e.to ≡ k → IsShardOf P G of k R y
        → tile_of (entry_found P e y).tiles e.in_flow ≡ None }
    ensures entry { (P : Plan) (G : Data) (of : Placement) (k : ℕ) (R : Moment) (e : Edge) (y : Content) (v : Entry)
        → IsConsistent P → IsSoundState P G R.state → MaySend P G R.state (item.Edge e) → of e.to ≡ k
        → IsShardOf P G of k R y → entry_of y e.to ≡ Some v
        → (v.goal ≡ goal P e.to) × (v.priority ≡ priority P e.to) × (entry_found P e y ≡ v) }
{}
