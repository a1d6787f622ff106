//! Simulations: a scene's clients and servers, round by round, in one thread.
#![tactic(auto)]

mod ask;
mod client;
pub mod examples;
pub mod report;
mod round;
mod rows;
pub mod simulation;
