//! Room between what threads write side by side.

/// Room of two cache lines, which processors fetch in pairs. If each of several locks in one list has one, no two of them share a
/// line, so a thread that takes one lock does not slow down those at the locks beside it.
pub type CachePad = [u64; 16];

/// Such room.
pub const CACHE_PAD: CachePad = [0; 16];
