//! Scenes: the settings of a run of a cluster, read from a TOML text and checked. The type `Scene` carries its limits.
#![tactic(auto)]

pub mod client;
pub mod costs;
pub mod examples;
pub mod fault;
mod held;
pub mod ignored;
pub mod key;
mod modes;
pub mod scene;
mod text;
