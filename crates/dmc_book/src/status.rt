//! What a queue's book reports.

/// What a worker's pass holds, and its book's numbers.
#[derive(Clone, Copy, Debug, PartialEq, Eq)]
pub struct Status {
    /// The worker's calls that got a reply.
    pub calls: u64,
    /// Those of them whose reply was Later, Nothing or a refusal.
    pub misses: u64,
    /// The tokens of the adds that were accepted from it, summed.
    pub tokens: u64,
    /// The grants that it got.
    pub grants: u64,
    /// The tokens of these grants, summed.
    pub granted: u64,
    /// What these grants cost, summed.
    pub cost: u64,
    /// How many clients are registered.
    pub clients: u32,
    /// How many requests are queued.
    pub requests: u32,
    /// How many events were recorded, released or not.
    pub events: u64,
    /// Whether no more requests are taken.
    pub closed: bool,
}
