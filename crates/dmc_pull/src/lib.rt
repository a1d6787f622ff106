//! The indexed queue: a queue of dmClock that looks at the first request of each client only.
#![tactic(auto)]

mod adding;
mod cleaning;
pub mod granting;
mod heads;
pub mod queue;
mod range;
mod records;
