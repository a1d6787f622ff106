//! What the tests of books and locks share: books that are opened, and their calls. It is in a crate below them, so that it is proved
//! once.
#![tactic(auto)]

pub mod calls;
pub mod opening;
pub mod tracker_calls;
pub mod tracker_setup;
