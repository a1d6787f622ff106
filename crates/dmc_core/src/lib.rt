//! The core of a cluster: one thread's queues and service trackers, the messages in flight between them, and the grants that
//! wait for their responses, event by event.
#![tactic(auto)]

mod client;
mod cluster;
pub mod cluster_core;
pub mod event;
mod flight;
pub mod ids;
mod opening;
mod pair;
mod server;
