//! How the tasks of a shard are hashed.

ghost use Rattle.std.specs.Prelude.{◌≡◌};

use std::hash::{BuildHasher, FoldHasher, Hasher};

// Makes the hashers of a table of tasks. Each begins with what the table's key made of it. So whoever writes a job
// can't search for tasks whose hashes are equal, unless they know the key.
#[derive(Clone, Copy, Drop)]
pub(crate) struct TaskHashing {
    keyed: FoldHasher,
}

impl TaskHashing {
    // Hashing with this key.
    pub(crate) fn with_key(key: u64) -> TaskHashing {
        let mut keyed = FoldHasher::default();
        keyed.write_u64(key);
        TaskHashing { keyed }
    }
}

impl BuildHasher for TaskHashing {
    type Hasher = FoldHasher;

    ghost build_hasher = { λ h. h.keyed };

    fn build_hasher(&self) -> FoldHasher {
        self.keyed
    }
}
