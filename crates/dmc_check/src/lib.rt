//! Whether what was recorded at a queue replays.
#![tactic(auto)]

pub mod check;
mod ghost_list;
mod replay;
pub mod replayer;
mod same;
pub mod text;
pub mod write;
