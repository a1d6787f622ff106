//! Ordered indexes: finite maps from keys to distinct ranks, with the least one in O(1).
#![tactic(auto)]

pub mod index;
pub mod list_index;
pub mod sliding_index;
