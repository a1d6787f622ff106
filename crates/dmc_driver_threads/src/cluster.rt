//! What the workers of a run share.
use crate::origin::{ClientLock, Origin};
use dmc_qlock::lock::LockedQueue;
use dmc_shared::witness::{Lasting, Witness};
use dmc_types::ids::ClientId;
use indexmap::IndexSet;

/// The locks of a cluster, and its clients' ids. It is generic in the queues' books and their witnesses.
#[derive(Drop)]
pub(crate) struct Cluster<B: Lasting, W: Witness<B>, S: Origin> {
    /// Of server 0, 1, ..
    pub(crate) queues: Vec<LockedQueue<B, W>>,
    /// Of the clients, in the scene's order.
    pub(crate) trackers: Vec<ClientLock<S>>,
    /// In the scene's order.
    pub(crate) ids: IndexSet<ClientId>,
    /// The most turns of a server's worker.
    pub(crate) max_pulls: u32,
}
