//! Ratio tags: exact fractions of ticks.
#![tactic(auto)]

pub mod divisor;
pub mod examples;
pub mod ratio;
