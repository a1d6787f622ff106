//! What a server does with a request that its queue granted.

use dmc_types::config::PhaseType;
use dmc_types::cost::Cost;
use dmc_types::ids::{ClientId, ServerId, Token};
use thiserror::Error;

/// A granted request: at which server, whose, its token, the phase of the grant, and its cost.
#[derive(Clone, Copy, Debug, PartialEq, Eq)]
pub struct Job {
    pub server: ServerId,
    pub client: ClientId,
    pub token: Token,
    pub phase: PhaseType,
    pub cost: Cost,
}

/// A service could not do a job.
#[derive(Clone, Copy, Debug, PartialEq, Eq, Error)]
#[error("the service failed")]
pub struct ServeFault;

/// Does the jobs. All server workers call it at once, and none of them holds a lock then.
pub trait Service {
    /// Does a job. A fault is counted as a failure of the client's; the request is completed nonetheless.
    fn serve(&self, job: &Job) -> Result<(), ServeFault>;
}
