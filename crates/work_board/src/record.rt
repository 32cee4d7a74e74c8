//! What contracts see of a pass.

ghost use Rattle.std.specs.Prelude.{Bool, List, ℕ};
ghost use Rattle.ptg_base.specs.Task.{Task};
ghost use Rattle.dep_shard.specs.Content.{Content};
ghost use Rattle.flow_meaning.specs.Machine.{SentItem};
ghost use Rattle.work_board.specs.Word.{Word};
ghost use Rattle.work_board.specs.Stamps.{StampedTask};
ghost use Rattle.work_board.specs.Handed.{HandedTask};

use std::marker::Model;

/// What a pass has done and what it holds. Only contracts see it: no value of it is made.
pub struct PassRecord {
    /// Its names, each with the number of passes that were split off under it. It has one name until it is joined with
    /// another pass.
    pub ghost names: { List (List ℕ × ℕ) },
    /// The tasks that it claimed.
    pub ghost claims: { List Task },
    /// The items that it sent, each with its tile.
    pub ghost sends: { List SentItem },
    /// The tasks that it runs: at most one until it is joined with another pass.
    pub ghost running: { List Task },
    /// The shards whose turns it holds, each with what the shard had when the turn was taken.
    pub ghost turns: { List (ℕ × Content) },
    /// The shard whose turn it took last, with what that shard had then; empty before its first turn.
    pub ghost last: { List (ℕ × Content) },
    /// Whether it has seen quiet.
    pub ghost quiet: { Bool },
    /// Whether it raised the halt word.
    pub ghost halts: { Bool },
    /// The word that it looked at last, and the number that it found there.
    pub ghost look: { Word × ℕ },
    /// How many looks it has made.
    pub ghost looks: { ℕ },
    /// Its credit: the part of the live word that it holds and that stands for no task. It will lower the word by the
    /// credit, or make a task ready that takes the credit's place.
    pub ghost credit: { ℕ },
    /// The stamps of its claims, each with its task.
    pub ghost stamps: { List StampedTask },
    /// Its claims, each with the tiles that were handed out with it.
    pub ghost handed: { List HandedTask },
}

impl Model for PassRecord {
    ghost use Rattle.std.specs.Borrow.{ftrue};

    ghost also_owns = { λ _. ftrue };
}
