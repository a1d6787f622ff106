//! One thing for each count of a worker.

/// How many books each worker has: one for each of its counts.
pub const BOOKS_PER_WORKER: u64 = 6;

/// One thing for each count of a worker: its calls, its misses, the tokens of the adds accepted from it, its grants, their tokens,
/// and what they cost.
#[derive(Drop)]
pub(crate) struct WorkerCounts<A> {
    pub(crate) calls: A,
    pub(crate) misses: A,
    pub(crate) tokens: A,
    pub(crate) grants: A,
    pub(crate) granted: A,
    pub(crate) cost: A,
}
