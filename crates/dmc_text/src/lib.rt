//! The texts of scripts, replies and events: their words and numbers, their lines, read and written.
#![tactic(auto)]

pub mod cause;
pub mod command;
pub mod event_line;
pub mod examples;
pub mod line;
pub mod lines;
pub mod number;
pub mod reply;
pub mod script;
pub mod send;
pub mod tag;
pub mod tags;
pub mod walk;
pub mod watched;
pub mod word;
pub mod write;
pub mod write_line;
