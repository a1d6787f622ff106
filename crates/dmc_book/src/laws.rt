//! What holds of every queue's book, by its type, wherever the book came from: out of a lock that was opened, for one. Each
//! law is the contract of a function that changes nothing: a caller that calls it knows the law.
ghost use Rattle.std.specs.Prelude.{◌≤◌, ◌⊎◌, List, Option, length};
ghost use Rattle.std.specs.List.{AllByRecursion};
ghost use Rattle.dmc_head_index.specs.Heads as heads_of;
ghost use Rattle.dmc_head_index.specs.Heads.{Ranks};
ghost use Rattle.dmc_head_index.specs.declared.head.Head.{Head};
ghost use Rattle.dmc_pull.specs.FirstRequests.{AreFirstRequests};
ghost use Rattle.dmc_tag.specs.Replay.{after, replays};
ghost use Rattle.dmc_history_laws.specs.Bounds.{KeepsToLimits, KeepsToReservations};
ghost use Rattle.dmc_book.specs.Consistent.{AreDesks, HasLeft, IsWorker};
ghost use Rattle.dmc_book.specs.Settling.{AreGrantsOfDesks};

use crate::book::QueueBook;
use dmc_index::index::Indexes;
use dmc_ledger::setup::Setup;
use dmc_tag::tag::Tag;

/// The replay clause: the history replays, reply by reply, as one thread's dmClock.
pub fn history_replays<T: Tag, I: Indexes<T>, S: Setup>(book: &QueueBook<T, I, S>)
    ensures { replays T.ops book.now.config book.now.history }
{
    let _ = &book.queue;
}

/// The counts: the books of each worker total its counts over the history, or were gathered at them if it was
/// dismissed; and each desk holds the stamps, deltas and rhos of its client's accepted adds and totals its grants of each phase, in
/// number and in cost.
pub fn history_is_counted<T: Tag, I: Indexes<T>, S: Setup>(book: &QueueBook<T, I, S>)
    ensures workers { AllByRecursion (λ w. IsWorker book.now.history w ⊎ HasLeft book.now.history w) book.now.workers }
    ensures desks { AreDesks book.now.history book.now.server book.now.workers book.now.desks }
{
    let accounts = &book.accounts;
    let _ = &accounts.workers;
}

/// The grants: each is of a client that has a desk, and no two desks are of one client. So what the desks' clients were granted
/// in a phase is together all that was granted in it, in number and in cost.
pub fn grants_are_of_desks<T: Tag, I: Indexes<T>, S: Setup>(book: &QueueBook<T, I, S>)
    ensures { AreGrantsOfDesks book.now.history book.now.desks }
{
    let accounts = &book.accounts;
    let _ = &accounts.desks;
}

/// The length: the history has at most `most` events, if those that were released count in both numbers. So a book of which
/// nothing was released has no more events than the `most` that it was made with.
pub fn history_keeps_to_most<T: Tag, I: Indexes<T>, S: Setup>(book: &QueueBook<T, I, S>)
    ensures { length book.now.history ≤ book.now.most }
{
    let accounts = &book.accounts;
    let _ = accounts.history.len();
}

/// The bound of the limits: from an accepted add of a client, a_i, to a grant of a_k in phase Priority, not beyond, hz times the
/// deltas of a_(i+1) .. a_k are at most the limit times the ticks between, if no Register and no Update of the client is
/// accepted between.
pub fn history_keeps_to_limits<T: Tag, I: Indexes<T>, S: Setup>(book: &QueueBook<T, I, S>)
    ensures { KeepsToLimits T.ops book.now.config book.now.history }
{
    let _ = book.config.hz();
}

/// The bound of the reservations: up to a grant of a_k in phase Reservation, hz times the rhos of a_(i+1) .. a_k, less hz for
/// each unit of cost of the client's Priority grants after a_i, is at most the reservation times the ticks between.
pub fn history_keeps_to_reservations<T: Tag, I: Indexes<T>, S: Setup>(book: &QueueBook<T, I, S>)
    ensures { KeepsToReservations T.ops book.now.config book.now.history }
{
    let _ = book.config.hz();
}

/// The index clause, of the index by R: it holds exactly the clients with a queued request in the state after the history,
/// each under the tag of its first request.
pub fn reservation_index<T: Tag, I: Indexes<T>, S: Setup>(
    book: &QueueBook<T, I, S>,
) -> &I::ReservationIndex
    ensures { (heads : List (Option (Head T))) × AreFirstRequests T.ops (after T.ops book.now.config book.now.history) heads
        × Ranks heads_of.tag_rank heads (I.ReservationIndex.slots result.now) }
{
    book.queue.0.reservation_index()
}

/// The index clause, of the index by L.
pub fn limit_index<T: Tag, I: Indexes<T>, S: Setup>(book: &QueueBook<T, I, S>) -> &I::LimitIndex
    ensures { (heads : List (Option (Head T))) × AreFirstRequests T.ops (after T.ops book.now.config book.now.history) heads
        × Ranks heads_of.limit_rank heads (I.LimitIndex.slots result.now) }
{
    book.queue.0.limit_index()
}

/// The index clause, of the index by P.
pub fn weight_index<T: Tag, I: Indexes<T>, S: Setup>(book: &QueueBook<T, I, S>) -> &I::WeightIndex
    ensures { (heads : List (Option (Head T))) × AreFirstRequests T.ops (after T.ops book.now.config book.now.history) heads
        × Ranks heads_of.ready_rank heads (I.WeightIndex.slots result.now) }
{
    book.queue.0.weight_index()
}
