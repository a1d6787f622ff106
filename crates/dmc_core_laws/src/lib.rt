//! The bounds over the cluster: what limits and reservations mean in every cluster run, and so in a cluster core.
#![tactic(auto)]

pub mod examples;
pub mod laws;
