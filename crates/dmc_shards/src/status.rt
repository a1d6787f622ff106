//! What a shard tracker shows of a shard.
use dmc_tracker::counts::Counts;

/// The counts of a shard, in units of cost: what its stamps carried, without what was given back, what was skipped there, and what
/// its next stamp would count besides its own request's counts. Together they are what came in.
#[derive(Clone, Copy, Debug, PartialEq, Eq)]
pub struct ShardStatus {
    pub sent: Counts,
    pub skipped: Counts,
    pub pending: Counts,
}
