//! A client's service tracker with the list of its stamps, skips and responses, and the books that they are counted in: in
//! one hand, and behind a lock.
#![tactic(auto)]

pub mod book;
mod desk;
mod entry;
pub mod fault;
pub mod laws;
pub mod lock;
mod parts;
pub mod pass;
pub mod segment;
pub mod settled;
pub mod status;
