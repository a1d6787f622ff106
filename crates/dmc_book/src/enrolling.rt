//! Workers that come later.
ghost use Rattle.std.specs.Prelude.{ℕ, ◌≡◌, ◌+◌, ◌-◌, ◌<◌, ◌≤◌, ◌++◌, ◌∷◌, ◌↔◌, [], length, map, slice_index_or, IfOk, IfSome, OnErr, OnOk, IsErrOf, IsNone, IsTrue, vec_capacity};
ghost use Rattle.dmc_ledger.specs.Bundles.{client_side};
ghost use Rattle.dmc_book.specs.BookState.{no_desk, pass_state, worker_side};
ghost use Rattle.dmc_book.specs.Consistent.{IsSeated};
ghost use Rattle.dmc_book.specs.Enrolling.{AreSeatLimits, book_enrolled};
ghost use Rattle.dmc_book.specs.internal.Enrolling.{IsAgainstWorker, accounts_enrolled};
ghost use Rattle.dmc_book.specs.Joining.{id_of};
ghost use Rattle.dmc_book.specs.Opening.{AreApart, desk_with_tills, new_pass, new_worker};
ghost use Rattle.dmc_book.specs.PerCount.{books_per_worker};
ghost use Rattle.dmc_book.specs.internal.Opening.{HaveRoom};
ghost use Rattle.dmc_book.specs.internal.Rooms.{IsRoom};

use crate::accounts::Accounts;
use crate::book::QueueBook;
use crate::fault::EnrolFault;
use crate::opening::{PassRoom, name_clients, open_one, room_for};
use crate::pass::WorkerPass;
use crate::per_count::BOOKS_PER_WORKER;
use crate::seat::Seat;
use dmc_index::index::Indexes;
use dmc_ledger::desk::ClientDesk;
use dmc_ledger::mint::Mint;
use dmc_ledger::setup::Setup;
use dmc_tag::tag::Tag;
use dmc_types::ids::WorkerId;
use std::alloc::{AllocError, Global};
use std::sync::Arc;

/// The most workers that a book has: each desk has a till open for each, and one more.
const MAX_WORKERS: usize = 4_294_967_294;

impl<T: Tag, I: Indexes<T>, S: Setup> QueueBook<T, I, S> {
    /// Enrols a worker that was not enrolled here before: its pass holds nothing, and has tills of each desk. The mint gives it
    /// `BOOKS_PER_WORKER` numbers. It takes a time, and memory, that grow with the numbers of workers and of desks.
    ///
    /// Refused `Known`, `Limit`, `Memory`, with the book and the mint as they were.
    pub fn enrol(
        &mut self,
        alloc: Global,
        worker: WorkerId,
        mint: &mut Mint<S>,
    ) -> Result<WorkerPass<S>, EnrolFault>
        ensures book { OnOk result (self.new ≡ book_enrolled mint.old.opened worker self.old) }
        ensures pass { IfOk result (λ pass.
            pass_state pass ≡ new_pass (length self.old.workers) mint.old.opened (map id_of self.old.desks) self.old.desks worker) }
        ensures mint { OnOk result (mint.new ≡ record { opened = mint.old.opened + books_per_worker; left = mint.old.left - books_per_worker }) }
        ensures kept { OnErr result (self.new ≡ self.old) }
        ensures mint_kept { OnErr result (mint.new ≡ mint.old) }
        ensures known { IsErrOf result EnrolFault.Known ↔ IsSeated self.old.workers worker.0 }
        ensures limit { IsErrOf result EnrolFault.Limit
            ↔ (IsSeated self.old.workers worker.0 → ⊥) × (AreSeatLimits (length self.old.workers) mint.old.left → ⊥) }
    {
        self.accounts.enrol(alloc, worker, mint)
    }
}

impl<T: Tag, S: Setup> Accounts<T, S> {
    /// Enrols a worker: see `QueueBook::enrol`.
    fn enrol(
        &mut self,
        alloc: Global,
        worker: WorkerId,
        mint: &mut Mint<S>,
    ) -> Result<WorkerPass<S>, EnrolFault>
        ensures accounts { OnOk result (self.new ≡ accounts_enrolled mint.old.opened worker self.old) }
        ensures pass { IfOk result (λ pass.
            pass_state pass ≡ new_pass (length self.old.workers) mint.old.opened (map id_of self.old.desks) self.old.desks worker) }
        ensures mint { OnOk result (mint.new ≡ record { opened = mint.old.opened + books_per_worker; left = mint.old.left - books_per_worker }) }
        ensures kept { OnErr result (self.new ≡ self.old) }
        ensures mint_kept { OnErr result (mint.new ≡ mint.old) }
        ensures known { IsErrOf result EnrolFault.Known ↔ IsSeated self.old.workers worker.0 }
        ensures limit { IsErrOf result EnrolFault.Limit
            ↔ (IsSeated self.old.workers worker.0 → ⊥) × (AreSeatLimits (length self.old.workers) mint.old.left → ⊥) }
    {
        if let Some(fault) = fault_against(&self.workers, worker, mint.left()) {
            return Err(fault);
        }
        let Ok(room) = make_seat_room(alloc, &self.desks, &mut self.workers) else {
            return Err(EnrolFault::Memory);
        };
        Ok(open_seat(&mut self.workers, &mut self.desks, worker, mint, room))
    }
}

/// Whether the worker is enrolled, or was.
fn is_seated<S: Setup>(workers: &[Seat<S>], worker: WorkerId) -> bool
    ensures { IsTrue result ↔ IsSeated (map worker_side workers.now) worker.0 }
{
    for seat in workers {
        if seat.worker == worker {
            return true;
        }
    }
    false
}

/// Why a worker is not enrolled, but for a failed allocation, if the mint has this many books left.
fn fault_against<S: Setup>(workers: &[Seat<S>], worker: WorkerId, left: u64) -> Option<EnrolFault>
    ensures cause { IfSome result (IsAgainstWorker (map worker_side workers.now) left worker) }
    ensures others { IsNone result → IsAgainstWorker (map worker_side workers.now) left worker EnrolFault.Memory }
{
    if is_seated(workers, worker) {
        return Some(EnrolFault::Known);
    }
    if workers.len() >= MAX_WORKERS || left < BOOKS_PER_WORKER {
        return Some(EnrolFault::Limit);
    }
    None
}

/// Room for the pass of one worker more, and for its seat.
fn make_seat_room<S: Setup>(
    alloc: Global,
    desks: &[ClientDesk<S>],
    workers: &mut Vec<Seat<S>>,
) -> Result<PassRoom<S>, AllocError>
    requires apart { AreApart (λ d. d.client) (map client_side desks.now) }
    ensures room { IfOk result (IsRoom (map (λ d. d.client) desks.now)) }
    ensures seat { OnOk result (length workers.old.items < vec_capacity workers.new) }
    ensures kept { workers.new.items ≡ workers.old.items }
{
    let Some(clients) = name_clients(alloc, desks)? else {
        unreachable!()
    };
    let clients = Arc::new(alloc, clients)?;
    let room = room_for(alloc, &clients)?;
    workers.reserve(1)?;
    Ok(room)
}

/// Opens the books of a worker, and its pass, in room that was made.
fn open_seat<S: Setup>(
    workers: &mut Vec<Seat<S>>,
    desks: &mut [ClientDesk<S>],
    worker: WorkerId,
    mint: &mut Mint<S>,
    room: PassRoom<S>,
) -> WorkerPass<S>
    requires left { books_per_worker ≤ mint.old.left }
    requires some_left { (k : ℕ) → k < length desks.old → HaveRoom (slice_index_or (map client_side desks.old) k no_desk).books }
    requires room { IsRoom (map (λ d. d.client) desks.old) room }
    requires seat { length workers.old.items < vec_capacity workers.old }
    ensures workers { map worker_side workers.new.items
        ≡ map worker_side workers.old.items ++ new_worker (length desks.old) mint.old.opened worker ∷ [] }
    ensures desks { map client_side desks.new ≡ map (desk_with_tills 1) (map client_side desks.old) }
    ensures pass { pass_state result
        ≡ new_pass (length workers.old.items) mint.old.opened (map (λ d. d.client) desks.old) (map client_side desks.old) worker }
    ensures mint { mint.new ≡ record { opened = mint.old.opened + books_per_worker; left = mint.old.left - books_per_worker } }
{
    let (seat, pass) = open_one(mint, worker, workers.len(), desks, room);
    workers.push(seat).unwrap();
    pass
}
