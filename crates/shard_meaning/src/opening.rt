//! Laws of the shards before the first event.

ghost use Rattle.std.specs.Prelude.{ℕ};
ghost use Rattle.plan_core.specs.declared.plan.Plan.{Plan};
ghost use Rattle.coll_data.specs.Data.{Data};
ghost use Rattle.dep_shard.specs.Content.{Content};
ghost use Rattle.shard_meaning.specs.Moment.{opening_moment};
ghost use Rattle.shard_meaning.specs.Opening.{HasOpeningReserve, IsOpeningShard};
ghost use Rattle.shard_meaning.specs.Reserve.{HasReserve};
ghost use Rattle.shard_meaning.specs.Share.{IsShardOf, Placement};

/// A law: a shard that has ready entries for its tasks without in edges, and nothing else, holds its part of the
/// opening moment; with spares for all that will come to it, it has its reserve.
pub fn the_opening_shards_hold_the_opening()
    ensures share { (P : Plan) (G : Data) (of : Placement) (k : ℕ) (y : Content) → IsOpeningShard P of k y
        → IsShardOf P G of k opening_moment y }
    ensures reserve { (P : Plan) (of : Placement) (k : ℕ) (y : Content) → IsOpeningShard P of k y
        → HasOpeningReserve P of k y → HasReserve P of k opening_moment y }
{}
