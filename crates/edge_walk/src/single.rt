//! What a target names, if it is no task.

ghost use Rattle.std.specs.Prelude.{◌≡◌};
ghost use Rattle.edge_walk.specs.Ties as ties;

use crate::tie::Far;
use dep_iter::place_of;
use plan_core::Target;

/// What a target names under these locals, if it is no task.
pub(crate) fn single(target: &Target, env: &[i64]) -> Option<Far>
    ensures { result ≡ ties.single env.now target.now }
{
    match target {
        Target::Task(_, _, _) => None,
        Target::Element(coll, indices) => {
            Some(Far::Place(place_of(*coll, indices.as_slice(), env)))
        }
        Target::New => Some(Far::New),
        Target::Null => Some(Far::Null),
    }
}
