//! The commands of a queue.
use crate::config::Counting;
use crate::ids::{ClientId, Token};
use crate::info::ClientInfo;
use crate::moment::Moment;
use crate::params::ReqParams;

/// One command to a queue.
#[derive(Clone, Copy, Debug, PartialEq, Eq)]
pub enum Command {
    /// Registers a client.
    Register {
        client: ClientId,
        info: ClientInfo,
        at: Moment,
    },
    /// Replaces a client's rates.
    Update {
        client: ClientId,
        info: ClientInfo,
        at: Moment,
    },
    /// Queues a request.
    Add {
        client: ClientId,
        token: Token,
        params: ReqParams,
        at: Moment,
    },
    /// Pulls the next request.
    Pull {
        at: Moment,
    },
    /// Removes a client's queued requests.
    Remove {
        client: ClientId,
    },
    /// Takes back a client's queued requests with a token, and what they were charged if their stamps counted it.
    Cancel {
        client: ClientId,
        token: Token,
        counting: Counting,
    },
    /// Marks clients idle, and erases old ones.
    Clean {
        at: Moment,
    },
}
