//! Whether a run had ended when its table was closed.

ghost use Rattle.std.specs.Prelude.{◌↔◌, List, IsTrue};
ghost use Rattle.ptg_base.specs.Task.{Task};
ghost use Rattle.dep_shard.specs.Content.{Content};
ghost use Rattle.flow_meaning.specs.Machine.{IsQuiescent};
ghost use Rattle.shard_meaning.specs.Calm.{HaveNoWork, IsCalm};
ghost use Rattle.work_board.specs.declared.record.PassRecord.{PassRecord};
ghost use Rattle.table_rule.specs.declared.table_job.TableJob.{TableJob};
ghost use Rattle.table_rule.specs.Records.{joined};
ghost use Rattle.dep_table.specs.ClosedMeaning.{HasTheMeaning};
ghost use Rattle.dep_table.specs.ClosedTables.{shards_of};
ghost use Rattle.dep_table.specs.Closing.{IsClosedAt};
ghost use Rattle.flow_meaning.specs.Order.{IsWholeOrder};
ghost use Rattle.dep_table.specs.StampOrders.{IsClaimOrder};

use crate::closed::Closed;
use shard_calls::have_no_work;

impl Closed {
    /// Whether the table was closed after the run had ended: no shard has work.
    pub fn quiet(&self) -> bool
        ensures { IsTrue result ↔ HaveNoWork (shards_of self.now) }
    {
        have_no_work(self.shards.as_slice())
    }
}

/// A law: if no shard of a closed table has work, the moment of its passes is calm and no event is possible. If the
/// moment is calm, no shard has work.
pub fn a_closed_table_without_work_is_quiescent()
    ensures calm { (j : TableJob) (vs : List PassRecord) (ys : List Content) → IsClosedAt j vs ys → HaveNoWork ys
        → IsCalm j.matched (joined vs) × IsQuiescent j.matched j.given (joined vs).state }
    ensures work { (j : TableJob) (vs : List PassRecord) (ys : List Content) → IsClosedAt j vs ys
        → IsCalm j.matched (joined vs) → HaveNoWork ys }
{}

/// A law: if no shard of a closed table has work, its passes have done what the job means. They claimed the tasks that
/// run, each once. They sent the items of the tasks that have outputs, each once and with the tile that its task
/// leaves. Each claimed task was sent its inputs.
pub fn a_quiet_close_has_the_meaning()
    ensures { (j : TableJob) (vs : List PassRecord) (ys : List Content) → IsClosedAt j vs ys → HaveNoWork ys
        → HasTheMeaning j.matched j.given (joined vs).state }
{}

/// A law: if no shard of a closed table has work, a legal order of the claims of its passes is a legal order of the
/// tasks that run.
pub fn a_quiet_close_has_an_order_of_what_ran()
    ensures { (j : TableJob) (vs : List PassRecord) (ys : List Content) (ts : List Task) → IsClosedAt j vs ys
        → HaveNoWork ys → IsClaimOrder j.matched (joined vs).state ts → IsWholeOrder j.matched j.given ts }
{}
