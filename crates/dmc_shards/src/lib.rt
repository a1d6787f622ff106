//! Shards: a server of many cores has a queue for each shard of its objects, and to the rules a shard is a server. A shard tracker
//! turns the stamp that a client's request brings to the server into the stamp that its shard's queue needs. It keeps running
//! counters; what they are is said of the list of its calls, which it does not keep.
#![tactic(auto)]

pub mod call;
pub mod examples;
pub mod laws;
mod shard;
pub mod status;
pub mod tracker;
