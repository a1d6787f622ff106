//! The calls of a shard tracker.
use dmc_types::ids::ServerId;
use dmc_types::params::ReqParams;

/// A call that a shard tracker carried out.
#[derive(Clone, Copy, Debug, PartialEq, Eq)]
pub enum ShardCall {
    /// A request with this stamp came in at the server, and went to a shard.
    Arrive { shard: ServerId, params: ReqParams },
    /// A shard's queue refused a request, and the counts of its stamp were given back.
    GiveBack { shard: ServerId, params: ReqParams },
    /// What was pending at a shard was skipped: no request was sent.
    Skip { shard: ServerId },
}
