//! The entries of a tracker's list.
use dmc_types::config::PhaseType;
use dmc_types::cost::Cost;
use dmc_types::ids::ServerId;
use dmc_types::params::ReqParams;

/// An entry of a tracker's list.
#[derive(Clone, Copy, Debug, PartialEq, Eq)]
pub enum TrackerEvent {
    /// A request to a server was stamped.
    Stamp {
        server: ServerId,
        params: ReqParams,
    },
    /// The completions that a stamp to a server would count were skipped: no request was sent.
    Skip {
        server: ServerId,
    },
    /// A server completed a request of a cost, which it granted in a phase.
    Response {
        server: ServerId,
        phase: PhaseType,
        cost: Cost,
    },
}
