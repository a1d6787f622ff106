//! The record of a client in a queue.
#![tactic(auto)]

mod cancelling;
mod queue;
pub mod record;
mod stored;
mod subtraction;
