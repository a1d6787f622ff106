//! A server of many cores, with a queue for each of its shards: a client's tracker for them, and the server behind locks.

pub use dmc_sharded::book::ArrivalBook;
pub use dmc_sharded::fault::{ArriveFault, UnitCause, UnitFault};
pub use dmc_sharded::laws as arrival_books;
pub use dmc_sharded::lock::{ArrivalLock, ArrivalStatus};
pub use dmc_sharded::server::ShardedServer;
pub use dmc_shards::laws;
pub use dmc_shards::status::ShardStatus;
pub use dmc_shards::tracker::{GiveBackFault, ShardTracker};
pub use dmc_tracker::counts::Counts;
