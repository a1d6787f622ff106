//! A server's queue behind its lock.
#![tactic(auto)]

pub mod fault;
mod guarded;
pub mod lock;
