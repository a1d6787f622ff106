//! The tools of the program `dmclock`, over any streams.
#![tactic(auto)]

mod check;
mod explain;
pub mod fault;
pub mod fault_line;
mod ignored;
pub mod inputs;
mod makers;
mod outcome;
pub mod progress;
mod run;
mod run_report;
mod run_scene;
mod scenes;
mod script;
mod sim;
pub mod tool;
pub mod verdicts;
pub mod version;
pub mod words;
