//! The indexed queue over heaps behind one type, with tick or ratio tags. Back ends in other languages own one of these.
#![tactic(auto)]

pub mod any_queue;
pub mod fraction;
