//! A client's service tracker: it counts the client's completions at the servers, and stamps each request with those that its
//! server does not know of. A tracker keeps running counters; what they are is said of the list of its stamps, skips and
//! responses, which it does not keep.
#![tactic(auto)]

pub mod counts;
pub mod event;
pub mod laws;
mod server;
pub mod tracker;
