//! Workloads: which server each request of a client goes to.
#![tactic(auto)]

pub mod plan;
