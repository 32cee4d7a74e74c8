//! Laws of the steps that are not events of the run: each keeps the rule, whatever the other passes do.

ghost use Rattle.std.specs.Prelude.{◌≡◌, ◌+◌, ◌-◌, ◌%◌, ◌^◌, ◌<◌, ℕ, [], ◌∷◌, false, length, Some};
ghost use mathlib.Core.Option.{none};
ghost use Rattle.atomic_table.specs.Table.{Allows, Joins, Splits, step};
ghost use Rattle.ptg_base.specs.Task.{Task};
ghost use Rattle.dep_shard.specs.Content.{Content, IsUnchanged, KeepsSpares};
ghost use Rattle.work_board.specs.declared.record.PassRecord.{PassRecord};
ghost use Rattle.table_rule.specs.declared.table_job.TableJob.{TableJob};
ghost use Rattle.table_rule.specs.Changes.{after_split, both, joined_away, split_off};
ghost use Rattle.table_rule.specs.Live.{own_stamps};
ghost use Rattle.table_rule.specs.Plays.{DrawsStamp, GivesBack, HasName, HasTurn, LowersLive, RaisesHalt, RaisesLive, ReadsHalt, ReadsLive, Seated, TriesTurn};
ghost use Rattle.table_rule.specs.Rule.{Rule};
ghost use Rattle.table_rule.specs.Words.{halt_word, live_word, stamp_word, turn_word};

/// A law: a pass that has a name may try to take the turn of a shard. If it finds 0 it has the turn, and it learns the
/// rule as it held at this step. Otherwise it has only looked.
pub fn a_turn_is_taken_or_found_taken()
    ensures { (j : TableJob) (n id : ℕ) (m : Seated) (k : ℕ) → k < j.shards → HasName m.0
        → Allows (Rule j) n id m (turn_word k) (λ _. 1) (TriesTurn (Some j) k (step n (turn_word k) 1 0 none) m) }
{}

/// A law: a pass without a credit may give back its turn if nothing of the shard changed but spares that grew.
pub fn a_turn_is_given_back()
    ensures { (j : TableJob) (n id : ℕ) (m : Seated) (k : ℕ) (y z : Content) → HasTurn m k y z 0 → IsUnchanged y z
        → KeepsSpares y.spare z.spare
        → Allows (Rule j) n id m (turn_word k) (λ _. 0) (λ _. GivesBack (step n (turn_word k) 0 0 none) m 0) }
{}

/// A law: another pass may be split off a pass with one name.
pub fn a_pass_is_split()
    ensures { (j : TableJob) (id : ℕ) (v : PassRecord) → length v.names ≡ 1
        → Splits (Rule j) id v (after_split v) (split_off v) }
{}

/// A law: a pass that has a name may take over another one.
pub fn two_passes_are_joined()
    ensures { (j : TableJob) (id : ℕ) (v : PassRecord) (other : ℕ) (w : PassRecord) → HasName v
        → Joins (Rule j) id v other w (both v w) joined_away }
{}

/// A law: in a table that is not preloaded a pass may raise the halt word.
pub fn halt_is_raised()
    ensures { (j : TableJob) (n id : ℕ) (m : Seated) → j.preloaded ≡ false
        → Allows (Rule j) n id m (halt_word j.shards) (λ _. 1) (λ _.
        RaisesHalt (step n (halt_word j.shards) 1 0 none) m 1) }
{}

/// A law: a pass may read the halt word. It finds 0 in a preloaded table.
pub fn halt_is_read()
    ensures { (j : TableJob) (n id : ℕ) (m : Seated)
        → Allows (Rule j) n id m (halt_word j.shards) (λ x. x)
        (ReadsHalt (Some j) (step n (halt_word j.shards) 0 0 none) m) }
{}

/// A law: a pass that holds more turns than it has credits may raise the live word. No sum wraps.
pub fn the_live_word_is_raised()
    ensures { (j : TableJob) (n id : ℕ) (m : Seated) → m.0.credit < length m.0.turns → HasName m.0
        → Allows (Rule j) n id m (live_word j.shards) (λ x. (x + 1) % 2 ^ 64)
        (RaisesLive (step n (live_word j.shards) 1 0 none) m) }
{}

/// A law: a pass that has a credit may lower the live word. No difference wraps.
pub fn the_live_word_is_lowered()
    ensures { (j : TableJob) (n id : ℕ) (m : Seated) → 0 < m.0.credit → HasName m.0
        → Allows (Rule j) n id m (live_word j.shards) (λ x. (x + (2 ^ 64 - 1)) % 2 ^ 64)
        (LowersLive (step n (live_word j.shards) 1 0 none) m) }
{}

/// A law: a pass may read the live word. If it finds 0 it has seen quiet, and it learns the rule with this mark.
pub fn the_live_word_is_read()
    ensures { (j : TableJob) (n id : ℕ) (m : Seated)
        → Allows (Rule j) n id m (live_word j.shards) (λ x. x)
        (ReadsLive (Some j) (step n (live_word j.shards) 0 0 none) m) }
{}

/// A law: a pass may draw a stamp for the task that it runs and that has none yet. No sum wraps.
pub fn a_stamp_is_drawn()
    ensures { (j : TableJob) (n id : ℕ) (m : Seated) (t : Task) → m.0.running ≡ t ∷ [] → own_stamps m.0 t ≡ 0
        → HasName m.0
        → Allows (Rule j) n id m (stamp_word j.shards) (λ x. (x + 1) % 2 ^ 64)
        (DrawsStamp t (step n (stamp_word j.shards) 1 0 none) m) }
{}
