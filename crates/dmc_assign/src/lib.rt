//! Assignment on a client's record.
#![tactic(auto)]

pub mod assignment;
