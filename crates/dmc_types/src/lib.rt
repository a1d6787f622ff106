//! The checked values of dmClock: ids, moments, costs, parameters, client infos, configurations and commands. None of them allocates.
#![tactic(auto)]

pub mod clock;
pub mod command;
pub mod config;
pub mod cost;
pub mod ids;
pub mod info;
pub mod laws;
pub mod limits;
pub mod moment;
pub mod params;
pub mod rates;
pub mod refusal;
