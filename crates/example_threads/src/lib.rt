//! What the examples of servers in threads share.
#![tactic(auto)]

pub mod flow;
pub mod words;
