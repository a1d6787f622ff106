//! Ordered indexes: a heap that knows the index of each key in it, one that is a sorted vector for a few keys, and one that stores
//! its ranks in fewer bytes.
#![tactic(auto)]

pub mod adaptive_index;
pub mod indexed_heap;
pub mod packed_index;
pub mod tick_indexes;
