//! The bounds of a history: what limits and reservations mean for a client's grants, over every history that replays.
#![tactic(auto)]

pub mod examples;
pub mod laws;
