//! What the threads of a run left keeps to its own limits and counts what happened, wherever it was meanwhile.
ghost use Rattle.std.specs.Prelude.{◌≤◌, All, length};
ghost use Rattle.dmc_tlock.specs.Consistent.{IsConsistent};
ghost use Rattle.dmc_tracker.specs.TrackerList.{completions};
ghost use Rattle.dmc_driver.specs.Ending.{IsCounted};

use dmc_book::book::QueueBook;
use dmc_book::laws::{history_is_counted, history_keeps_to_most};
use dmc_index::index::Indexes;
use dmc_ledger::setup::Setup;
use dmc_tag::tag::Tag;
use dmc_tlock::book::TrackerBook;
use dmc_tlock::laws::{book_is_consistent, completions_are_within};

/// No history has more events than its book may have.
pub(crate) fn keep_to_most<T: Tag, I: Indexes<T>, S: Setup>(books: &[QueueBook<T, I, S>])
    ensures { All (λ book. length book.history ≤ book.most) books.now }
{
    for book in books {
        history_keeps_to_most(book);
    }
}

/// No tracker has counted completions that cost more than it may count.
pub(crate) fn count_within<S: Setup>(trackers: &[TrackerBook<S>])
    ensures { All (λ book. (completions book.events).delta ≤ book.tracker.most) trackers.now }
{
    for tracker in trackers {
        completions_are_within(tracker);
    }
}

/// The workers and the desks of each book count its history.
pub(crate) fn count_histories<T: Tag, I: Indexes<T>, S: Setup>(books: &[QueueBook<T, I, S>])
    ensures { All IsCounted books.now }
{
    for book in books {
        history_is_counted(book);
    }
}

/// The books of each tracker count its list.
pub(crate) fn keep_consistent<S: Setup>(trackers: &[TrackerBook<S>])
    ensures { All IsConsistent trackers.now }
{
    for tracker in trackers {
        book_is_consistent(tracker);
    }
}
