//! What may cross threads: a job is shared by all workers, and a shard is handed from one to another.

use coll_data::Given;
use dep_iter::Matched;
use dep_shard::Shard;
use plan_core::Plan;

// Compiles only if T may be shared between threads.
fn needs_sync<T: Sync>(x: &T) {
    let _x = x;
}

// Compiles only if T may be handed to another thread.
fn needs_send<T: Send>(x: &T) {
    let _x = x;
}

/// A plan may be shared between threads.
pub fn shares_plan(plan: &Plan) {
    needs_sync(plan);
}

/// A consistent plan may be shared between threads.
pub fn shares_matched(m: &Matched) {
    needs_sync(m);
}

/// The data of a job may be shared between threads.
pub fn shares_given(given: &Given) {
    needs_sync(given);
}

/// A shard may be sent to another thread.
pub fn sends_shard(shard: &Shard) {
    needs_send(shard);
}

/// A shard may be shared between threads.
pub fn shares_shard(shard: &Shard) {
    needs_sync(shard);
}
