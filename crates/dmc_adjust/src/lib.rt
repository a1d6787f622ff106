//! Adjustment and reduction of a client's record.
#![tactic(auto)]

pub mod adjustment;
pub mod reduction;
