//! What holds of every tracker book, by its type. Each law is the contract of a function that does nothing: a caller that
//! calls it knows the law.
ghost use Rattle.std.specs.Prelude.{◌≤◌};
ghost use Rattle.dmc_tracker.specs.TrackerList.{IsTracked, completions};
ghost use Rattle.dmc_tlock.specs.Consistent.{IsConsistent};

use crate::book::TrackerBook;
use crate::segment::TrackerSegment;
use dmc_ledger::setup::Setup;

/// The book is consistent, wherever it came from: a lock that was opened, for one.
pub fn book_is_consistent<S: Setup>(book: &TrackerBook<S>)
    ensures { IsConsistent book.now }
{
    let _ = &book.list;
}

/// Its tracker has counted no more completions than its `most`.
pub fn completions_are_within<S: Setup>(book: &TrackerBook<S>)
    ensures { (completions book.now.events).delta ≤ book.now.tracker.most }
{
    let _ = book.tracker.completions();
}

/// Each stamp of the list up to a segment's end carries what the list demands.
pub fn segment_is_tracked<S: Setup>(segment: &TrackerSegment<S>)
    ensures { IsTracked segment.now.counting segment.now.history }
{
    let _ = &segment.counting;
}
