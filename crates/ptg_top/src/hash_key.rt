//! The key with which tables hash tasks.

use std::hash::{BuildHasher, RandomState};
use std::random::RandomSource;

// The key if the system gives no random bytes.
const NO_KEY: u64 = 0;

// A key that nobody can know beforehand. So whoever writes a job can't choose tasks whose look-ups take long. No answer
// depends on it.
pub(crate) fn hash_key<R: RandomSource>(rt: &R) -> u64 {
    match RandomState::new(rt) {
        Ok(state) => state.hash_one(NO_KEY),
        Err(_) => NO_KEY,
    }
}
