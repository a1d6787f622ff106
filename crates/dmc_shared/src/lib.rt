//! What both locks build on: a list that is recorded behind a lock and released in segments, witnesses of the book behind it, and
//! room between locks.
#![tactic(auto)]

pub mod kept;
pub mod pad;
pub mod segment;
pub mod segmented;
pub mod witness;
