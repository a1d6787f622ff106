//! What a run of a cluster reports.

use dmc_queue_history::history::EventHistory;
use dmc_tag::tag::Tag;
use dmc_types::ids::{ClientId, ServerId};
use dmc_types::refusal::Refusal;

/// Why a worker ended before its work was done.
#[derive(Clone, Copy, Debug, PartialEq, Eq)]
pub enum StopCause {
    /// A server's worker took its last turn.
    Turns,
    /// A client's worker was rung to end, by a server's worker that had stopped.
    Rung,
    /// The queue refused a request or a pull by its rules.
    Refused(Refusal),
    /// A history had no place left.
    HistoryFull,
    /// A tracker counts no further.
    TrackFull,
    /// The allocator refused a growth.
    Memory,
    /// The worker's thread could not be started.
    Spawn,
    /// A lock refused the worker for another cause.
    Stray,
}

/// The stamps that were left in a client's pass over all servers, with their deltas and rhos.
#[derive(Clone, Copy, Debug, Default, PartialEq, Eq)]
pub struct StampsLeft {
    pub stamps: u64,
    pub delta: u128,
    pub rho: u128,
}

/// What a client did, in numbers of requests, over all servers.
#[derive(Clone, Copy, Debug, PartialEq, Eq)]
pub struct ClientReport {
    pub client: ClientId,
    /// Those that a queue accepted.
    pub sent: u64,
    /// Those whose response its tracker counted.
    pub completed: u64,
    /// What the completed ones cost.
    pub cost: u64,
    /// Those for which the service returned a fault.
    pub failed: u64,
    /// The stamps that were left in its pass, with their deltas and rhos.
    pub held: StampsLeft,
    /// Why its worker stopped, if it did.
    pub stop: Option<StopCause>,
}

/// The units of grants that were left in the passes of a server's workers, in each phase.
#[derive(Clone, Copy, Debug, Default, PartialEq, Eq)]
pub struct UnitsHeld {
    pub reservation: u64,
    pub priority: u64,
}

/// What a server did, in numbers of requests.
#[derive(Drop)]
pub struct ServerReport<T: Tag> {
    pub server: ServerId,
    /// Those that it granted in the constraint phase.
    pub reservation: u64,
    /// Those that it granted in the weight phase, beyond the limit or not.
    pub priority: u64,
    /// Those that were queued in the end.
    pub left: u32,
    /// The units of grants that were left in its workers' passes: granted, and not responded.
    pub held: UnitsHeld,
    /// Its queue's history, in order.
    pub history: EventHistory<T>,
    /// Why its workers stopped, those that did.
    pub stops: Vec<StopCause>,
}

/// What a run of a cluster reports.
#[derive(Drop)]
pub struct ClusterReport<T: Tag> {
    /// The clients, in the scene's order.
    pub clients: Vec<ClientReport>,
    /// Server 0, 1, ..
    pub servers: Vec<ServerReport<T>>,
}
