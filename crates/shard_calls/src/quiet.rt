//! Whether shards have work.

ghost use Rattle.std.specs.Prelude.{◌↔◌, IsTrue};
ghost use Rattle.shard_meaning.specs.Calm.{HaveNoWork};

use dep_shard::Shard;

/// Whether no shard has work.
pub fn have_no_work(shards: &[Shard]) -> bool
    ensures { IsTrue result ↔ HaveNoWork shards.now }
{
    for k in 0..shards.len() {
        if !shards[k].is_calm() {
            return false;
        }
    }
    true
}
