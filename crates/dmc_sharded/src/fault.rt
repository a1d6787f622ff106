//! Why a request did not come in at a shard, or a response was not taken.
use dmc_book::fault::SubmitCause;
use dmc_ledger::unit::Unit;
use dmc_tracker::tracker::TrackFault;
use thiserror::Error;

/// Why a request did not come in. Nothing was counted at any shard, so that its client may send it again with the same stamp.
#[derive(Clone, Copy, Debug, PartialEq, Eq, Error)]
pub enum ArriveFault {
    /// There is no such shard.
    #[error("there is no such shard")]
    NoServer,
    /// The deltas that came in would pass the tracker's `most`, or the shard's stamp 2^32-1; or the shard's queue took 2^63 requests
    /// of the client.
    #[error("the counts are past their limits")]
    TrackFull,
    /// The shard's queue did not take it.
    #[error("{0}")]
    Queue(SubmitCause),
}

impl From<TrackFault> for ArriveFault {
    ghost use Rattle.std.specs.Prelude.{◌≡◌};
    ghost use Rattle.dmc_sharded.specs.Arriving.{of_track};

    ghost from_gives = { λ x e. e ≡ of_track x };

    fn from(fault: TrackFault) -> ArriveFault {
        match fault {
            TrackFault::NoServer => ArriveFault::NoServer,
            TrackFault::TrackFull => ArriveFault::TrackFull,
        }
    }
}

/// Why a response is not taken.
#[derive(Clone, Copy, Debug, PartialEq, Eq, Error)]
pub enum UnitCause {
    /// There is no such shard.
    #[error("there is no such shard")]
    NoServer,
    /// The unit is another client's, or the tills are not of this client's grants at its shard in its phase.
    #[error("the grant is another client's, shard's or phase's")]
    Stranger,
}

/// A response that was not taken, with its unit, which may be responded with again. Nothing has changed.
#[derive(Drop)]
pub struct UnitFault {
    pub unit: Unit,
    pub cause: UnitCause,
}
