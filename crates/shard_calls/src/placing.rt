//! The shard of a task.

ghost use Rattle.std.specs.Prelude.{◌≡◌, ◌<◌, ◌%◌};
ghost use Rattle.ptg_base.specs.Limits.{IsShardCount};
ghost use Rattle.dep_iter.specs.Consistent.{IsConsistent};
ghost use Rattle.dep_iter.specs.Tasks.{IsTask};
ghost use Rattle.shard_meaning.specs.Placing as placing;
ghost use Rattle.shard_meaning.specs.Placing.{home_of, shard_of};
ghost use Rattle.shard_calls.specs.Opened.{placement_by};

use dep_iter::{Matched, TaskAt, place_number};
use ptg_base::TaskId;
use range_space::Numbers;
use term_core::{Expr, is_closed};

// What tasks are shared out to.
#[derive(Clone, Copy)]
pub(crate) enum SharedTo {
    // The shards of a table.
    Shards,
    // The ranks of a world.
    Ranks,
}

// 2^64 over the golden ratio, which is odd: the high bits of its multiples are far apart.
const MULTIPLIER: u64 = 11400714819323198485;

// The bits of a hash from this one on number a shard.
const LOW_BITS: u32 = 48;

// A hash with one more parameter.
fn hash_with(hash: u64, param: i64) -> u64
    ensures { result ≡ placing.hash_with hash param }
{
    hash.wrapping_add(param.cast_unsigned())
        .wrapping_mul(MULTIPLIER)
}

// A hash with these parameters, one after another.
fn hash_from(hash: u64, params: &[i64]) -> u64
    ensures { result ≡ placing.hash_from hash params.now }
{
    match params.split_first() {
        Some((first, rest)) => hash_from(hash_with(hash, *first), rest),
        None => hash,
    }
}

// The shard of a task by its hash.
fn spread(shards: usize, t: &TaskId) -> usize
    requires { IsShardCount shards }
    ensures number { result ≡ placing.spread_of shards t.now }
    ensures within { result < shards }
{
    let hash = hash_from(u64::from(t.class()), t.params());
    ((hash >> LOW_BITS) % shards as u64) as usize
}

// Whether none of these expressions names a local.
fn name_no_local(indices: &[Expr]) -> bool
    ensures { result ≡ placing.name_no_local indices.now }
{
    match indices.split_first() {
        Some((first, rest)) => is_closed(first, 0) && name_no_local(rest),
        None => true,
    }
}

// Whether the affinity of a task's class is one place for all its tasks.
fn has_one_place(at: &TaskAt) -> bool
    ensures { result ≡ placing.has_one_place at.now.plan.now at.now.task.now }
{
    let class = at.plan.class(at.task.class());
    name_no_local(class.affinity.indices.as_slice())
}

// The remainder of a number that mostly is less than the divisor. Then nothing is divided.
fn remainder(n: u64, divisor: u64) -> u64
    requires { 0 < divisor }
    ensures { result ≡ n % divisor }
{
    if n < divisor { n } else { n % divisor }
}

/// Where a task of a consistent plan belongs by the place of its affinity alone, among `shards` shards.
#[tactic(auto, unfolding(shard_meaning::specs::Placing::home_of))]
pub fn home_at(at: &TaskAt, shards: usize) -> usize
    requires plan { IsConsistent at.now.plan.now }
    requires shards { IsShardCount shards }
    ensures number { result ≡ home_of at.now.plan.now shards at.now.task.now }
    ensures within { result < shards }
{
    let place = at.affinity();
    let count = shards as u64;
    let coll = remainder(u64::from(place.coll), count);
    let number = place_number(at.plan, &place) % count;
    remainder(coll + number, count) as usize
}

/// Where a task belongs by the place of its affinity alone, among `shards` shards.
pub fn home_of(m: &Matched, shards: usize, t: &TaskId) -> usize
    requires task { IsTask m.now t.now }
    requires shards { IsShardCount shards }
    ensures number { result ≡ home_of m.now shards t.now }
    ensures within { result < shards }
{
    home_at(&TaskAt::of(m.plan(), t, &mut Numbers::new()), shards)
}

/// The shard of a task of a consistent plan, among `shards` shards.
#[tactic(auto, unfolding(shard_meaning::specs::Placing::shard_of))]
pub fn shard_at(at: &TaskAt, shards: usize) -> usize
    requires plan { IsConsistent at.now.plan.now }
    requires shards { IsShardCount shards }
    ensures number { result ≡ shard_of at.now.plan.now shards at.now.task.now }
    ensures within { result < shards }
{
    if has_one_place(at) {
        spread(shards, at.task)
    } else {
        home_at(at, shards)
    }
}

// The number of the shard, or of the rank, of a task of a consistent plan.
pub(crate) fn number_at(to: SharedTo, at: &TaskAt, count: usize) -> usize
    requires plan { IsConsistent at.now.plan.now }
    requires count { IsShardCount count }
    ensures number { result ≡ placement_by to at.now.plan.now count at.now.task.now }
    ensures within { result < count }
{
    match to {
        SharedTo::Shards => shard_at(at, count),
        SharedTo::Ranks => home_at(at, count),
    }
}
