//! The first requests of all clients that have one queued, in three orders.
#![tactic(auto)]

pub mod head;
pub mod heads;
mod share;
