//! The types of tiles.

/// The name of type 0.
pub const DEFAULT_TYPE: &[u8] = b"DEFAULT";
