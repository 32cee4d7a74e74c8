//! Laws of the rule itself: what it says about all passes together, about one that has all names, and before the first
//! step.

ghost use Rattle.std.specs.Prelude.{◌≡◌, ◌<◌, ℕ, List, [], ◌∷◌, length, map, slice_index};
ghost use mathlib.Core.Option.{some};
ghost use lib.ListN.{get_elem?};
ghost use Rattle.atomic_table.specs.Table.{opening};
ghost use Rattle.ptg_base.specs.Task.{Task};
ghost use Rattle.plan_core.specs.declared.plan.Plan.{Plan};
ghost use Rattle.dep_shard.specs.Content.{Content};
ghost use Rattle.list_lemmas.specs.Counting.{HasSameMembers};
ghost use Rattle.work_board.specs.declared.record.PassRecord.{PassRecord};
ghost use Rattle.table_rule.specs.declared.table_job.TableJob.{TableJob};
ghost use Rattle.table_rule.specs.Changes.{after_split, both, first_pass, split_off};
ghost use Rattle.table_rule.specs.Live.{AreStamps};
ghost use Rattle.table_rule.specs.Names.{AreAll};
ghost use Rattle.table_rule.specs.Opening.{IsOpening};
ghost use Rattle.shard_meaning.specs.Placing.{shard_of};
ghost use Rattle.table_rule.specs.Records.{joined, moment_of};
ghost use Rattle.table_rule.specs.Rule.{Parts, Rule, Table};
ghost use Rattle.table_rule.specs.Words.{stamp_word, turn_word};

/// A law: if the rule holds, its parts hold at the moment whose lists are those of all passes, joined.
pub fn the_rule_holds_of_the_joined_records()
    ensures { (j : TableJob) (s : Table) → Rule j s → Parts j s (joined s.views) }
{}

/// A law: before the first step, with one pass that has done nothing, the rule holds.
pub fn the_rule_holds_before_the_first_step()
    ensures { (j : TableJob) (words : List ℕ) (shards : List Content) → IsOpening j words shards
        → Rule j (opening words shards first_pass) }
{}

/// A law: if one pass has all names, the rule holds at what that pass did, and all stamps are its own. If it also holds
/// no turn, each turn is free.
pub fn a_pass_with_all_names_is_alone()
    ensures moment { (j : TableJob) (s : Table) (id : ℕ) (v : PassRecord) → Rule j s → get_elem? s.views id ≡ some v
        → AreAll (v ∷ []) → Parts j s (moment_of v) }
    ensures stamps { (j : TableJob) (s : Table) (id : ℕ) (v : PassRecord) → Rule j s → get_elem? s.views id ≡ some v
        → AreAll (v ∷ []) → AreStamps j.matched (moment_of v) v.stamps (slice_index s.words (stamp_word j.shards)) }
    ensures free { (j : TableJob) (s : Table) (id : ℕ) (v : PassRecord) → Rule j s → get_elem? s.views id ≡ some v
        → AreAll (v ∷ []) → v.turns ≡ [] → (k : ℕ) → k < j.shards → slice_index s.words (turn_word k) ≡ 0 }
{}

/// A law: the first pass is all passes. A list of all passes stays one in another order, and as long as the names stay.
/// It is one after a pass is split and the new one added, and after two passes are joined.
pub fn all_passes_stay_all()
    ensures first { AreAll (first_pass ∷ []) }
    ensures split { (v : PassRecord) (vs : List PassRecord) → length v.names ≡ 1 → AreAll (v ∷ vs)
        → AreAll (after_split v ∷ split_off v ∷ vs) }
    ensures join { (v w : PassRecord) (vs : List PassRecord) → AreAll (v ∷ w ∷ vs) → AreAll (both v w ∷ vs) }
    ensures order { (vs ws : List PassRecord) → HasSameMembers vs ws → AreAll vs → AreAll ws }
    ensures names { (vs ws : List PassRecord)
        → map (λ (w : PassRecord). w.names) ws ≡ map (λ (v : PassRecord). v.names) vs → AreAll vs → AreAll ws }
{}

/// A law: each task belongs to one of the shards.
pub fn each_task_has_a_shard()
    ensures { (P : Plan) (n : ℕ) (t : Task) → 0 < n → shard_of P n t < n }
{}
