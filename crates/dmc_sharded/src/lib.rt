//! A server of many cores behind locks: a queue for each shard, each behind a lock of its own, and for each client a book of what its
//! requests brought, behind one lock for all shards.
#![tactic(auto)]

pub mod book;
mod desk;
pub mod fault;
pub mod laws;
pub mod lock;
pub mod server;
