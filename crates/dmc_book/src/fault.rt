//! Why a call of a queue's book is refused.
use dmc_history::ReserveFault;
use dmc_ledger::desk::ClientDesk;
use dmc_ledger::setup::Setup;
use dmc_ledger::stamp::Stamp;
use dmc_types::refusal::Refusal;
use std::alloc::AllocError;
use thiserror::Error;

/// Why a command was not passed to the queue. Nothing has changed (extension).
#[derive(Clone, Copy, Debug, PartialEq, Eq, Error)]
pub enum RunFault {
    /// The pass is of no worker that is enrolled here, or its tills are not of that worker's books; or the pass has tills
    /// for every desk, but the one for this client belongs to another book.
    #[error("the pass or a till is of other books")]
    Stranger,
    /// The rules would grant a request whose unit the pass has no till for, and desks came after the pass: `extend` it.
    #[error("the pass has no tills of the desks that came later")]
    Behind,
    /// A client is to be registered that has no desk.
    #[error("the client has no desk")]
    NoDesk,
    /// The history has its `most` events.
    #[error("the history is full")]
    HistoryFull,
    /// The allocator refused a growth.
    #[error("out of memory")]
    Memory,
}

impl From<ReserveFault> for RunFault {
    ghost use Rattle.std.specs.Prelude.{◌≡◌};
    ghost use Rattle.dmc_book.specs.Calls.{run_cause};

    ghost from_gives = { λ x e. e ≡ run_cause x };

    fn from(fault: ReserveFault) -> RunFault {
        match fault {
            ReserveFault::HistoryFull => RunFault::HistoryFull,
            ReserveFault::Memory => RunFault::Memory,
        }
    }
}

/// Why a pull is refused.
#[derive(Clone, Copy, Debug, PartialEq, Eq)]
pub enum RunOrRange {
    /// The pull was not passed to the queue. Nothing has changed.
    Run(RunFault),
    /// The rules refuse the pull: a sum is no value of the tag type. This is recorded, as a miss.
    Range,
}

/// Why a request was not queued (extension).
#[derive(Clone, Copy, Debug, PartialEq, Eq, Error)]
pub enum SubmitCause {
    /// The pass is of no worker that is enrolled here, or its tills are not of that worker's books; the stamp is for another
    /// server, or of a client without a desk; or the stamp's tills are not of that client's books.
    #[error("the pass, a till or the stamp is of another book")]
    Stranger,
    /// The book is closed.
    #[error("the book is closed")]
    Closed,
    /// The history has its `most` events.
    #[error("the history is full")]
    HistoryFull,
    /// The allocator refused a growth.
    #[error("out of memory")]
    Memory,
    /// The rules refuse the request. This alone is recorded, as a miss.
    #[error("{0}")]
    Refused(Refusal),
}

impl From<ReserveFault> for SubmitCause {
    ghost use Rattle.std.specs.Prelude.{◌≡◌};
    ghost use Rattle.dmc_book.specs.Calls.{submit_cause};

    ghost from_gives = { λ x e. e ≡ submit_cause x };

    fn from(fault: ReserveFault) -> SubmitCause {
        match fault {
            ReserveFault::HistoryFull => SubmitCause::HistoryFull,
            ReserveFault::Memory => SubmitCause::Memory,
        }
    }
}

/// A request that was not queued, with its stamp, which may be submitted again.
#[derive(Drop)]
pub struct SubmitFault {
    pub stamp: Stamp,
    pub cause: SubmitCause,
}

/// Why a queue's book could not be made.
#[derive(Clone, Copy, Debug, PartialEq, Eq, Error)]
pub enum NewFault {
    /// `most` is not 1 to 2^30, there are more than 65,536 desks, or the mint has fewer books left than the workers have.
    #[error("the events, the desks or the books are past their limits")]
    Limit,
    /// A worker or a client is named twice.
    #[error("a worker or a client is named twice")]
    Twice,
    /// The allocator refused a growth.
    #[error("out of memory")]
    Memory,
}

impl From<AllocError> for NewFault {
    ghost use Rattle.std.specs.Prelude.{◌≡◌};
    ghost use Rattle.dmc_book.specs.declared.fault.NewFault.TheVariants.{Memory};

    ghost from_gives = { λ _ e. e ≡ Memory };

    fn from(_error: AllocError) -> NewFault {
        NewFault::Memory
    }
}

/// Why a queue's book could not be made, with the desks as they were.
#[derive(Drop)]
pub struct BookFault<S: Setup> {
    pub desks: Vec<ClientDesk<S>>,
    pub cause: NewFault,
}

/// Why a client was not admitted. Nothing has changed.
#[derive(Clone, Copy, Debug, PartialEq, Eq, Error)]
pub enum AdmitCause {
    /// The desk is another server's, or was used: it holds a stamp, or issued a grant.
    #[error("the desk is of another server, or was used")]
    Stranger,
    /// The client has a desk here.
    #[error("the client has a desk")]
    Known,
    /// There are 65,536 desks.
    #[error("there are as many desks as there may be")]
    Clients,
    /// The allocator refused a growth.
    #[error("out of memory")]
    Memory,
}

/// Why a client was not admitted, with its desk as it was.
#[derive(Drop)]
pub struct AdmitFault<S: Setup> {
    pub desk: ClientDesk<S>,
    pub cause: AdmitCause,
}

/// Why a pass was not extended. Nothing has changed.
#[derive(Clone, Copy, Debug, PartialEq, Eq, Error)]
pub enum ExtendFault {
    /// The pass is of no worker that is enrolled here, its tills are not of that worker's books, or it has tills of more or of
    /// fewer desks than the book opened for it.
    #[error("the pass or a till is of other books")]
    Stranger,
    /// The allocator refused a growth.
    #[error("out of memory")]
    Memory,
}

/// Why a worker was not enrolled. Nothing has changed.
#[derive(Clone, Copy, Debug, PartialEq, Eq, Error)]
pub enum EnrolFault {
    /// A worker of this number is enrolled, or was.
    #[error("the worker is enrolled, or was")]
    Known,
    /// There are 2^32-2 workers, or the mint has fewer than `BOOKS_PER_WORKER` books left.
    #[error("the workers or the books are past their limits")]
    Limit,
    /// The allocator refused a growth.
    #[error("out of memory")]
    Memory,
}
