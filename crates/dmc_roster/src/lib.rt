//! The clients of a queue, in order of registration.
#![tactic(auto)]

pub mod change;
pub mod roster;
