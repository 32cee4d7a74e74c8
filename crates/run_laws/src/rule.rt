//! Laws of what a pass knows by the rule of the table, and of the size of a table's words.

ghost use Rattle.std.specs.Prelude.{◌≡◌, ◌+◌, ◌<◌, ◌↔◌, ℕ, ℤ, List, [], ◌∷◌, Option, true, IsTrue, ◌≤◌, length, slice_index};
ghost use Rattle.ptg_base.specs.Task.{Task};
ghost use Rattle.ptg_base.specs.declared.edge.Edge.{Edge};
ghost use Rattle.ptg_base.specs.declared.edge.Item.{Item};
ghost use Rattle.ptg_base.specs.declared.edge.Item.TheVariants as item;
ghost use Rattle.dep_iter.specs.Edges.{goal};
ghost use Rattle.dep_shard.specs.Content.{Content};
ghost use Rattle.flow_meaning.specs.Machine.{MaySend, arrived, IsQuiescent};
ghost use Rattle.shard_meaning.specs.Moment.{run_count};
ghost use Rattle.work_board.specs.Sends.{IsNext};
ghost use Rattle.work_board.specs.declared.record.PassRecord.{PassRecord};
ghost use Rattle.table_rule.specs.declared.table_job.TableJob.{TableJob};
ghost use Rattle.table_rule.specs.Plays.{WasSeen, fires};
ghost use Rattle.table_rule.specs.Records.{joined};
ghost use Rattle.table_rule.specs.Rule.{Reserve, Share, Rule, Table, placement_of};
ghost use mathlib.Core.Option.{some};
ghost use lib.ListN.{get_elem?};
ghost use Rattle.shard_meaning.specs.Calm.{IsCalm};
ghost use Rattle.dep_iter.specs.Tasks.{all_tasks};
ghost use Rattle.table_rule.specs.Words.{live_word, stamp_word};

/// A law: a pass that has taken a turn knows the following. The shard had its part of the moment of all passes and, in
/// a preloaded table, its spares. The task that the pass runs is among the running tasks of that moment. What is next
/// to send by the pass's own record may be sent. An edge fires its target if and only if all other edges into it were
/// sent.
pub fn a_taken_turn_tells_what_its_shard_had()
    ensures shard { (j : TableJob) (k : ℕ) (v : PassRecord) (y : Content) (w : WasSeen j k v y) → k < j.shards }
    ensures share { (j : TableJob) (k : ℕ) (v : PassRecord) (y : Content) (w : WasSeen j k v y)
        → Share j (joined w.table.views) k y }
    ensures reserve { (j : TableJob) (k : ℕ) (v : PassRecord) (y : Content) (w : WasSeen j k v y) → j.preloaded ≡ true
        → Reserve j (joined w.table.views) k y }
    ensures runs { (j : TableJob) (k : ℕ) (v : PassRecord) (y : Content) (w : WasSeen j k v y) (t : Task)
        → v.running ≡ t ∷ [] → 0 < run_count (joined w.table.views) t }
    ensures next { (j : TableJob) (k : ℕ) (v : PassRecord) (y : Content) (w : WasSeen j k v y) (i : Item)
        (tile : Option (List ℤ))
        → IsNext j.matched j.given i tile v → MaySend j.matched j.given (joined w.table.views).state i }
    ensures fires { (j : TableJob) (k : ℕ) (v : PassRecord) (y : Content) (w : WasSeen j k v y) (e : Edge)
        (tile : Option (List ℤ))
        → IsNext j.matched j.given (item.Edge e) tile v → placement_of j e.to ≡ k
        → IsTrue (fires j.matched y e)
        ↔ (arrived j.matched (joined w.table.views).state e.to + 1 ≡ goal j.matched e.to) }
{}

/// A law: once a pass has seen quiet, from then on no task is ready, no pass runs a task, and no event is possible.
pub fn quiet_is_seen_for_good()
    ensures { (j : TableJob) (s : Table) (id : ℕ) (v : PassRecord) → Rule j s → get_elem? s.views id ≡ some v
        → v.quiet ≡ true → IsCalm j.matched (joined s.views) × IsQuiescent j.matched j.given (joined s.views).state }
{}

/// A law: the live word is at most the number of tasks plus the number of shards, and the stamp word at most the number
/// of tasks.
pub fn the_words_stay_small()
    ensures live { (j : TableJob) (s : Table) → Rule j s
        → slice_index s.words (live_word j.shards) ≤ length (all_tasks j.matched) + j.shards }
    ensures stamp { (j : TableJob) (s : Table) → Rule j s
        → slice_index s.words (stamp_word j.shards) ≤ length (all_tasks j.matched) }
{}
