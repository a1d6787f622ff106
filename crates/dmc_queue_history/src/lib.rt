//! A queue's history: its commands and their replies, in little memory, and in segments if it runs for long.
#![tactic(auto)]

pub mod history;
mod kept;
pub mod laws;
pub mod list;
mod lists;
mod marked;
mod place;
pub mod segment;
pub mod segmented;
