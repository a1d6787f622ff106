//! Why a call of a tracker book is refused.
use dmc_history::ReserveFault;
use dmc_ledger::unit::Unit;
use dmc_tracker::tracker::TrackFault;
use thiserror::Error;

/// Why tills are not taken for a server's.
#[derive(Clone, Copy, Debug, PartialEq, Eq, Error)]
pub enum TillFault {
    /// The tracker has no such server.
    #[error("the tracker has no such server")]
    NoServer,
    /// A till is not of that server's books here.
    #[error("a till is of other books")]
    Stranger,
}

/// Why a stamp, a skip or a response is refused. Nothing has changed.
#[derive(Clone, Copy, Debug, PartialEq, Eq, Error)]
pub enum EntryFault {
    /// The tracker has no such server.
    #[error("the tracker has no such server")]
    NoServer,
    /// A till is not of that server's books here; of a response, not of the phase's, or the unit is another client's.
    #[error("a till is of other books")]
    Stranger,
    /// The call would take a count past the tracker's `most`, or a stamp's delta past 2^32-1.
    #[error("a count would pass the tracker's most, or a stamp's 2^32-1")]
    TrackFull,
    /// The list keeps its `max_events` entries.
    #[error("the history is full")]
    HistoryFull,
    /// The allocator refused a growth of the list.
    #[error("out of memory")]
    Memory,
}

/// A response that was not counted, with its unit, which may be responded with again.
#[derive(Drop)]
pub struct RespondFault {
    pub unit: Unit,
    pub cause: EntryFault,
}

impl From<TillFault> for EntryFault {
    ghost use Rattle.std.specs.Prelude.{◌≡◌};
    ghost use Rattle.dmc_tlock.specs.Causes.{of_till};

    ghost from_gives = { λ x e. e ≡ of_till x };

    fn from(fault: TillFault) -> EntryFault {
        match fault {
            TillFault::NoServer => EntryFault::NoServer,
            TillFault::Stranger => EntryFault::Stranger,
        }
    }
}

impl From<TrackFault> for EntryFault {
    ghost use Rattle.std.specs.Prelude.{◌≡◌};
    ghost use Rattle.dmc_tlock.specs.Causes.{of_track};

    ghost from_gives = { λ x e. e ≡ of_track x };

    fn from(fault: TrackFault) -> EntryFault {
        match fault {
            TrackFault::NoServer => EntryFault::NoServer,
            TrackFault::TrackFull => EntryFault::TrackFull,
        }
    }
}

impl From<ReserveFault> for EntryFault {
    ghost use Rattle.std.specs.Prelude.{◌≡◌};
    ghost use Rattle.dmc_tlock.specs.Causes.{of_reserve};

    ghost from_gives = { λ x e. e ≡ of_reserve x };

    fn from(fault: ReserveFault) -> EntryFault {
        match fault {
            ReserveFault::HistoryFull => EntryFault::HistoryFull,
            ReserveFault::Memory => EntryFault::Memory,
        }
    }
}
