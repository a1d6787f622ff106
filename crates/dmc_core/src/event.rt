//! What happens in a cluster, and what the cluster replies.
ghost use Rattle.std.specs.Prelude.{◌≡◌, ⊤};

use dmc_tag::reply::Reply;
use dmc_tracker::tracker::TrackFault;
use dmc_types::config::PhaseType;
use dmc_types::cost::Cost;
use dmc_types::ids::{ClientId, ServerId, Token};
use dmc_types::info::ClientInfo;
use dmc_types::moment::Moment;
use dmc_types::params::ReqParams;
use std::alloc::AllocError;
use thiserror::Error;

/// A request that was stamped and has not yet arrived: what the client names it by, the two counts of its stamp, and its cost.
#[derive(Clone, Copy, Debug, PartialEq, Eq)]
pub struct Message {
    pub token: Token,
    pub params: ReqParams,
}

/// One event of a cluster. Moments are in ticks, and a moment that goes back is no refusal.
#[derive(Clone, Copy, Debug, PartialEq, Eq)]
pub enum CoreEvent {
    /// A client stamps a request of a cost to a server: its tracker gives the counts, and the message is in flight.
    Stamp {
        client: ClientId,
        server: ServerId,
        token: Token,
        cost: Cost,
    },
    /// The oldest message in flight from a client to a server arrives at the server's queue.
    Arrive {
        client: ClientId,
        server: ServerId,
        at: Moment,
    },
    /// A server pulls. A grant waits for its response.
    Pull {
        server: ServerId,
        at: Moment,
    },
    /// A client hears of a request of a cost that a server granted in a phase: its tracker counts the completion.
    Respond {
        client: ClientId,
        server: ServerId,
        phase: PhaseType,
        cost: Cost,
    },
    /// A server replaces a client's rates.
    Update {
        server: ServerId,
        client: ClientId,
        info: ClientInfo,
        at: Moment,
    },
    /// A server takes out a client's queued requests.
    Remove {
        server: ServerId,
        client: ClientId,
    },
    /// A server takes out a client's queued requests with a token. What they were charged is given back, if the client's stamps
    /// counted it, as they do in the form `Others` of counting.
    Cancel {
        server: ServerId,
        client: ClientId,
        token: Token,
    },
    /// A server marks clients idle, and erases old ones.
    Clean {
        server: ServerId,
        at: Moment,
    },
}

/// The reply to an event.
#[derive(Copy, Debug, PartialEq, Eq)]
pub enum CoreReply<T> {
    /// The request is stamped with these counts, and the cost.
    Stamped(ReqParams),
    /// What the server's queue replied. If it refused the command, nothing has changed; a message that it refused is
    /// still the oldest in flight.
    Served(Reply<T>),
    /// The completion is counted.
    Counted,
}

impl<T: Copy> Clone for CoreReply<T> {
    ghost is_clone = { λ x y. y ≡ x };

    ghost is_infallible = { λ _. ⊤ };

    fn clone(&self) -> Result<CoreReply<T>, AllocError> {
        Ok(*self)
    }
}

/// Why an event is refused. It has changed nothing. Of several causes the first is reported, in this order.
#[derive(Clone, Copy, Debug, PartialEq, Eq, Error)]
pub enum CoreFault {
    /// The cluster has no such client (`Stamp`, `Arrive`, `Respond`, `Cancel`).
    #[error("the cluster has no such client")]
    NoClient,
    /// The cluster has no such server.
    #[error("the cluster has no such server")]
    NoServer,
    /// 2^20 messages from the client to the server are in flight (`Stamp`).
    #[error("2^20 messages are in flight")]
    FlightFull,
    /// No message from the client to the server is in flight (`Arrive`).
    #[error("no message is in flight")]
    NoFlight,
    /// 2^32-1 grants of the server to some client, all in one phase, wait for their responses (`Pull`).
    #[error("too many grants wait for their responses")]
    GrantsFull,
    /// No grant of this cost, of the server to the client in the phase, waits for its response (`Respond`). Grants may complete in
    /// any order.
    #[error("no grant waits for its response")]
    NoGrant,
    /// The client's tracker would count past 2^32-1 units of cost (`Stamp`, `Respond`).
    #[error("the tracker has counted its most")]
    TrackFull,
    /// The allocator refused a growth (`Stamp`, `Arrive`).
    #[error("out of memory")]
    Memory,
}

impl From<TrackFault> for CoreFault {
    ghost use Rattle.dmc_core.specs.Faults.{fault_of};

    ghost from_gives = { λ fault e. e ≡ fault_of fault };

    fn from(fault: TrackFault) -> CoreFault {
        match fault {
            TrackFault::NoServer => CoreFault::NoServer,
            TrackFault::TrackFull => CoreFault::TrackFull,
        }
    }
}

impl From<AllocError> for CoreFault {
    ghost use Rattle.dmc_core.specs.declared.event.CoreFault.TheVariants.{Memory};

    ghost from_gives = { λ _ e. e ≡ Memory };

    fn from(_error: AllocError) -> CoreFault {
        CoreFault::Memory
    }
}
