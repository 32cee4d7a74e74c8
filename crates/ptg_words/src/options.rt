//! The options of a verb.

/// Which options a verb has.
#[derive(Clone, Copy)]
pub(crate) enum Options {
    /// None.
    NoOptions,
    /// `--workers N` and `--shards K`.
    Counts,
    /// `--workers N`, `--shards K` and `--preload`.
    CountsAndPreload,
}
