//! Texts that are cut at bytes and words.

ghost use Rattle.std.specs.Prelude.{◌≡◌, ◌≤◌, ◌++◌, List, ℕ, IsTrue, MatchOption, drop, length, take};
ghost use Rattle.trace_core.specs.Cutting.{IsCut, is_free_of, opens_with};

// The number of bytes before the first `end`, or of all bytes if there is none.
fn length_before(bytes: &[u8], end: u8) -> usize
    ensures within { result ≤ length bytes.now }
    ensures free { IsTrue (is_free_of end (take result bytes.now)) }
    ensures next { IsTrue (opens_with end (drop result bytes.now)) }
{
    'bytes: for i in 0..bytes.len() {
        if bytes[i] == end {
            return i;
        }
    }
    bytes.len()
}

// The bytes before the first `end`, and those from it on.
pub(crate) fn cut(bytes: &[u8], end: u8) -> (&[u8], &[u8])
    ensures { IsCut end bytes.now result.0.now result.1.now }
{
    bytes.split_at(length_before(bytes, end))
}

// What follows a word, if the bytes begin with it.
pub(crate) fn after_word<'a>(bytes: &'a [u8], word: &[u8]) -> Option<&'a [u8]>
    ensures { MatchOption result ((rest : List ℕ) → bytes.now ≡ word.now ++ rest → ⊥) (λ rest.
        bytes.now ≡ word.now ++ rest.now) }
{
    match bytes.strip_prefix(word) {
        Some(rest) => Some(rest),
        None => None,
    }
}
