//! What a cluster's threads leave, gathered: the report of a run, and the circle that ties each server's queue to each client's
//! tracker.
#![tactic(auto)]

mod checks;
mod clients;
pub mod report;
pub mod room;
mod servers;
pub mod settle;
