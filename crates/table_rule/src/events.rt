//! Laws of the steps that are an event of the run or end a task: each gives a turn back and keeps the rule.

ghost use Rattle.std.specs.Prelude.{◌≡◌, ◌<◌, ◌++◌, ℕ, ℤ, List, [], ◌∷◌, Option, None, Some, IsTrue, is_some, if◌then◌else◌};
ghost use mathlib.Core.Option.{none};
ghost use Rattle.atomic_table.specs.Table.{Allows, step};
ghost use Rattle.ptg_base.specs.Entry.{FlowTile};
ghost use Rattle.ptg_base.specs.Task.{Task};
ghost use Rattle.ptg_base.specs.declared.edge.Edge.{Edge};
ghost use Rattle.ptg_base.specs.declared.edge.Item.TheVariants as item;
ghost use Rattle.ptg_base.specs.declared.edge.WriteBack.{WriteBack};
ghost use Rattle.term_core.specs.declared.trap.Trap.{Trap};
ghost use Rattle.plan_core.specs.Kinds.{flow_of};
ghost use Rattle.dep_shard.specs.Content.{Content, Ends, KeepsAllButEntries, KeepsAllButWritten, KeepsEntriesAndWritten, KeepsSpares, Takes, Updates, Uses, entry_of};
ghost use Rattle.list_lemmas.specs.Counting.{as_number};
ghost use Rattle.shard_meaning.specs.Reserve.{has_type};
ghost use Rattle.work_board.specs.Sends.{IsNext, MayEnd, MayTrap};
ghost use Rattle.table_rule.specs.declared.table_job.TableJob.{TableJob};
ghost use Rattle.table_rule.specs.Live.{own_stamps};
ghost use Rattle.shard_meaning.specs.Share.{entry_after};
ghost use Rattle.table_rule.specs.Plays.{GivesClaim, GivesEnd, GivesSend, HasTurn, Seated, fires};
ghost use Rattle.table_rule.specs.Rule.{Rule, placement_of};
ghost use Rattle.table_rule.specs.Words.{turn_word};

/// A law: a pass that holds a turn may take the ready entry of a task out of that shard, and give the turn back with a
/// claim of the task. It learns that the task may run, that the tiles of the entry are its inputs, and that the pass
/// has sent no item of it.
pub fn a_turn_is_given_back_with_a_claim()
    ensures { (j : TableJob) (n id : ℕ) (m : Seated) (k : ℕ) (t : Task) (y z : Content) (tiles : List FlowTile)
        → HasTurn m k y z 0 → Takes y z t tiles → KeepsSpares y.spare z.spare
        → Allows (Rule j) n id m (turn_word k) (λ _. 0) (λ _.
        GivesClaim (Some j) t tiles (step n (turn_word k) 0 0 none) m 0) }
{}

/// A law: a pass may give a turn back with a send of an item of the task that it runs. The task has its stamp, and the
/// shard has the arrival or the written tile. For an edge, the pass has a credit if and only if the target fires, and
/// the send spends it.
pub fn a_turn_is_given_back_with_a_send()
    ensures edge { (j : TableJob) (n id : ℕ) (m : Seated) (k : ℕ) (e : Edge) (tile : Option (List ℤ)) (y z : Content)
        (datatype : ℕ)
        → HasTurn m k y z (as_number (fires j.matched y e)) → IsNext j.matched j.given (item.Edge e) tile m.0
        → placement_of j e.to ≡ k → 0 < own_stamps m.0 e.from
        → Updates y.entries z.entries e.to (Some (entry_after j.matched e tile y))
        → KeepsAllButEntries y z → IsTrue (has_type datatype (flow_of j.matched.classes e.to.class e.in_flow))
        → Uses y.spare z.spare (if is_some (entry_of y e.to) then 0 else 1)
        (if is_some tile then Some datatype else None) 0 0
        → Allows (Rule j) n id m (turn_word k) (λ _. 0) (λ _.
        GivesSend record { item = item.Edge e; tile = tile } (step n (turn_word k) 0 0 none) m 0) }
    ensures write { (j : TableJob) (n id : ℕ) (m : Seated) (k : ℕ) (w : WriteBack) (tile : List ℤ) (y z : Content)
        (datatype : ℕ)
        → HasTurn m k y z 0 → IsNext j.matched j.given (item.Write w) (Some tile) m.0
        → placement_of j w.from ≡ k → 0 < own_stamps m.0 w.from → z.written ≡ y.written ++ (w, tile) ∷ []
        → KeepsAllButWritten y z → IsTrue (has_type datatype (flow_of j.matched.classes w.from.class w.flow))
        → Uses y.spare z.spare 0 (Some datatype) 1 0
        → Allows (Rule j) n id m (turn_word k) (λ _. 0) (λ _.
        GivesSend record { item = item.Write w; tile = Some tile } (step n (turn_word k) 0 0 none) m 0) }
{}

/// A law: a pass may give the turn of its running task's shard back with the end of that task, which has its stamp.
/// Either the task has outputs and the pass has sent all its items, or the task traps and the shard has the row.
pub fn a_turn_is_given_back_with_an_end()
    ensures end { (j : TableJob) (n id : ℕ) (m : Seated) (k : ℕ) (t : Task) (y z : Content) → HasTurn m k y z 0
        → MayEnd j.matched j.given t m.0 → placement_of j t ≡ k → 0 < own_stamps m.0 t → Ends y z
        → KeepsEntriesAndWritten y z → z.trapped ≡ y.trapped → KeepsSpares y.spare z.spare
        → Allows (Rule j) n id m (turn_word k) (λ _. 0) (λ _. GivesEnd (step n (turn_word k) 0 0 none) m 0) }
    ensures trap { (j : TableJob) (n id : ℕ) (m : Seated) (k : ℕ) (t : Task) (cause : Trap) (y z : Content)
        → HasTurn m k y z 0 → MayTrap j.matched j.given t cause m.0 → placement_of j t ≡ k
        → 0 < own_stamps m.0 t → Ends y z → KeepsEntriesAndWritten y z → z.trapped ≡ y.trapped ++ (t, cause) ∷ []
        → Uses y.spare z.spare 0 None 0 1
        → Allows (Rule j) n id m (turn_word k) (λ _. 0) (λ _. GivesEnd (step n (turn_word k) 0 0 none) m 0) }
{}
