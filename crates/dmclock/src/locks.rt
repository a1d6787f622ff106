//! Queues and trackers that threads share: each behind a lock, with the books that count what goes between them.

pub use dmc_book::book::QueueBook;
pub use dmc_book::fault::{
    AdmitCause, AdmitFault, BookFault, EnrolFault, ExtendFault, NewFault, RunFault, SubmitCause,
    SubmitFault,
};
pub use dmc_book::pass::WorkerPass;
pub use dmc_book::per_count::BOOKS_PER_WORKER;
pub use dmc_book::seat::Seat;
pub use dmc_book::settled::{Amounts, GrantsHeld, Settled};
pub use dmc_book::status::Status;
use dmc_heap::adaptive_index::HeapIndexes;
use dmc_heap::tick_indexes::TickIndexes;
pub use dmc_ledger::bundle::{PhaseTills, StampTills};
pub use dmc_ledger::desk::{BOOKS_PER_PAIR, ClientDesk, ServerDesk, close_pair, open_pair};
pub use dmc_ledger::full::Full;
pub use dmc_ledger::mint::{Blank, Mint};
pub use dmc_ledger::setup::Setup;
pub use dmc_ledger::stamp::Stamp;
pub use dmc_ledger::till::Till;
pub use dmc_ledger::unit::Unit;
pub use dmc_qlock::fault::RunOrRange;
pub use dmc_qlock::lock::{Locked, OfServer, QueueLock};
pub use dmc_queue_history::segment::Segment;
use dmc_ratio::ratio::RatioTag;
use dmc_tick::tick::TickTag;
pub use dmc_tlock::book::{TrackerBook, TrackerFault};
pub use dmc_tlock::fault::{EntryFault, RespondFault, TillFault};
pub use dmc_tlock::lock::TrackerLock;
pub use dmc_tlock::pass::ClientPass;
pub use dmc_tlock::segment::TrackerSegment;
pub use dmc_tlock::settled::{StampsHeld, TrackerSettled};
pub use dmc_tlock::status::TrackStatus;
pub use dmc_tracker::event::TrackerEvent;

/// The book of a `TickQueue`.
pub type TickBook<S> = QueueBook<TickTag, TickIndexes, S>;

/// The book of a `RatioQueue`.
pub type RatioBook<S> = QueueBook<RatioTag, HeapIndexes, S>;

/// A `TickQueue` with its book behind a lock.
pub type TickLock<S> = QueueLock<TickTag, TickIndexes, S>;

/// A `RatioQueue` with its book behind a lock.
pub type RatioLock<S> = QueueLock<RatioTag, HeapIndexes, S>;
