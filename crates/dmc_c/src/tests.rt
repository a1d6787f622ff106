//! Tests of the exports, as C calls them.
mod codes;
mod queues;
mod run;
mod sent;
mod shards;
mod trackers;
