//! The queue behind a server's lock, with its history and the counts of its events.
#![tactic(auto)]

mod accounts;
mod asking;
pub mod book;
mod counts;
mod desk;
mod enrolling;
mod extending;
pub mod fault;
mod joining;
pub mod laws;
mod leaving;
mod names;
mod opening;
mod parts;
pub mod pass;
pub mod per_count;
mod pulling;
pub mod seat;
pub mod settled;
pub mod status;
mod submitting;
