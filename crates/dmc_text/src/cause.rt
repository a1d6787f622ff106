//! The cause for which a line is refused.

use thiserror::Error;

/// What is wrong with a line. If several things are, it is the first of these.
#[derive(Clone, Copy, Debug, PartialEq, Eq, Error)]
pub enum LineCause {
    /// It has more than 256 bytes, or one out of 32 to 126.
    #[error("bytes")]
    Bytes,
    /// It is the first line that is not ignored and is no `hz` line, or a later `hz` line; or an `hz` line that is out of a
    /// limit. In an event text a segment's header is not ignored.
    #[error("hz")]
    Hz,
    /// Its first word is unknown, or it has too few words or too many.
    #[error("words")]
    Words,
    /// A word that has to be a number is not one of its type; or a segment's header comes at another event than it says.
    #[error("number")]
    Number,
}
