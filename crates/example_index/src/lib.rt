//! What a back end can prove of a queue that threads shared, from the laws of `dmclock` alone: once the lock is opened, the index
//! by reservation has a key for each client with a queued request.
#![tactic(auto)]

ghost use Rattle.std.specs.Prelude.{◌≡◌, true};
ghost use Rattle.dmclock.specs.Types.{ClientId};
ghost use Rattle.dmclock.specs.Replay.{after};
ghost use Rattle.dmclock.specs.State.{has_queued};
ghost use Rattle.example_index.specs.Keys.{HasKey};

use dmclock::laws::queue_books::reservation_index;
use dmclock::locks::{QueueBook, Setup, TickLock};
use dmclock::{Indexes, OrderIndex, Tag};

/// The index by reservation of a queue's book, which has a key for each client with a queued request in the state after the
/// book's history.
pub fn indexed_clients<T: Tag, I: Indexes<T>, S: Setup>(
    book: &QueueBook<T, I, S>,
) -> &I::ReservationIndex
    ensures { (id : ClientId) → has_queued id (after T.ops book.now.config book.now.history).clients ≡ true
        → HasKey id (I.ReservationIndex.slots result.now) }
{
    reservation_index(book)
}

/// How many clients have a queued request once no thread shares the lock.
pub fn count_waiting<S: Setup>(lock: TickLock<S>) -> usize {
    let book = lock.into_book();
    indexed_clients(&book).len()
}
