//! The workers of a cluster in threads: opened, run until all of them have ended, and what they leave.
#![tactic(auto)]

mod bell;
mod cause;
mod client_worker;
mod cluster;
mod gathering;
pub mod limits;
pub mod moments;
mod opening;
pub mod origin;
pub mod remains;
mod server_worker;
pub mod service;
mod threads;
pub mod workers;
