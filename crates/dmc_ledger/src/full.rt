//! The refusal of a call of a set-up.

use thiserror::Error;

/// A limit is reached: all books of the set-up are open, 2^32-1 tills of the book are open, or the total would be above 2^63.
/// Nothing has changed.
#[derive(Clone, Copy, Debug, PartialEq, Eq, Error)]
#[error("a limit of the set-up is reached")]
pub struct Full;
