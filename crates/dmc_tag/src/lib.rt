//! What dmClock means here: tags and their laws, the plain state and its rules, and what a scheduler promises.
#![tactic(auto)]

pub mod answers;
pub mod assignment;
pub mod cancel;
pub mod due;
pub mod event;
pub mod laws;
pub mod plain;
pub mod progress;
pub mod rank;
pub mod reply;
pub mod run;
pub mod scheduler;
pub mod shifting;
pub mod spacing;
pub mod tag;
