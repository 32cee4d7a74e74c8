//! Where the words of a table are.

ghost use Rattle.std.specs.Prelude.{◌≡◌, ◌≤◌, ◌<◌};
ghost use Rattle.ptg_base.specs.Limits.{most_shards};
ghost use Rattle.table_rule.specs.Words.{halt_word, live_word, turn_word};
ghost use Rattle.table_rule.specs.Words as words;

// The distance between two words that are used: no two of them are on one cache line.
pub(crate) const STRIDE: usize = 16;

// The index of the turn word of a shard.
pub(crate) fn turn_index(shard: u32) -> usize
    requires { shard < most_shards }
    ensures { result ≡ turn_word shard }
{
    STRIDE * shard as usize
}

// The index of the halt word of a table with this many shards.
pub(crate) fn halt_index(shards: u32) -> usize
    requires { shards ≤ most_shards }
    ensures { result ≡ halt_word shards }
{
    STRIDE * shards as usize
}

// The index of the live word of such a table.
pub(crate) fn live_index(shards: u32) -> usize
    requires { shards ≤ most_shards }
    ensures { result ≡ live_word shards }
{
    STRIDE * (shards as usize + 1)
}

// The index of the stamp word of such a table.
pub(crate) fn stamp_index(shards: u32) -> usize
    requires { shards ≤ most_shards }
    ensures { result ≡ words.stamp_word shards }
{
    STRIDE * (shards as usize + 2)
}
