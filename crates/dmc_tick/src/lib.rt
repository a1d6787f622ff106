//! Tick tags: whole numbers of ticks.
#![tactic(auto)]

pub mod examples;
pub mod packed;
pub mod tick;
