//! What a shard tracker keeps for a shard.
ghost use Rattle.std.specs.Prelude.{◌≡◌, ◌+◌, ◌≤◌};
ghost use Rattle.dmc_types.specs.Values.{no_counts};

use dmc_tracker::counts::Counts;

/// What was sent to the shard, without what was given back, and what was skipped there.
#[derive(Clone, Copy, Debug, PartialEq, Eq)]
pub struct ShardCounts {
    pub sent: Counts,
    pub skipped: Counts,
}

impl ShardCounts {
    ghost use Rattle.dmc_shards.specs.Kept.{rest_of};

    /// Nothing was sent or skipped.
    pub fn none() -> ShardCounts
        ensures { result ≡ record { sent = no_counts; skipped = no_counts } }
    {
        ShardCounts {
            sent: Counts::none(),
            skipped: Counts::none(),
        }
    }

    /// What is pending at the shard, of what came in.
    pub fn pending(&self, came: Counts) -> Counts
        requires delta { self.now.sent.delta + self.now.skipped.delta ≤ came.delta }
        requires rho { self.now.sent.rho + self.now.skipped.rho ≤ came.rho }
        ensures { result ≡ rest_of came self.now }
    {
        came.minus(self.sent).minus(self.skipped)
    }
}
