//! What a queue's book opens with.
ghost use Rattle.std.specs.Prelude.{◌≡◌, ◌+◌, ◌-◌, ◌*◌, ◌<◌, ◌≤◌, ◌++◌, ◌↔◌, ℕ, [], length, map, vec_capacity, slice_index_or, IfOk, OnOk, IfSome, IsSome, IsTrue, IsErrOf};
ghost use Rattle.std.specs.List.{AllByRecursion};
ghost use Rattle.std.specs.Arc.{arc_value};
ghost use Rattle.dmc_types.specs.Limits.{max_events, max_workers};
ghost use Rattle.dmc_ledger.specs.Accounts.{new_book, new_till};
ghost use Rattle.dmc_ledger.specs.Bundles.{client_side, grant_holdings, phase_accounts, phase_holdings};
ghost use Rattle.dmc_book.specs.BookState.{pass_state, worker_side, no_desk};
ghost use Rattle.dmc_book.specs.Opening.{AreApart, AreBookLimits, AreNamedOnce, IsNewDesk, desk_with_tills, phase_with_tills, new_accounts_state, new_pass, new_passes, new_phase_tills, new_unit, new_worker, new_workers};
ghost use Rattle.dmc_book.specs.PerCount.{books_per_worker, map_counts, numbers_from};
ghost use Rattle.dmc_book.specs.internal.Opening.{HasPhaseRoom, HaveRoom};
ghost use Rattle.dmc_book.specs.internal.Rooms.{IsRoom, IsRoomFor};

use crate::accounts::Accounts;
use crate::fault::NewFault;
use crate::pass::WorkerPass;
use crate::per_count::{BOOKS_PER_WORKER, WorkerCounts};
use crate::seat::{Seat, WorkerBooks, WorkerTills};
use dmc_ledger::book::Book;
use dmc_ledger::bundle::{GrantTills, PhaseBooks, PhaseTills};
use dmc_ledger::desk::ClientDesk;
use dmc_ledger::mint::Mint;
use dmc_ledger::setup::Setup;
use dmc_ledger::till::Till;
use dmc_queue_history::history::EventHistory;
use dmc_queue_history::segmented::SegmentedHistory;
use dmc_tag::tag::Tag;
use dmc_types::ids::{ClientId, ServerId, WorkerId};
use dmc_types::limits::MAX_EVENTS;
use indexmap::IndexSet;
use std::alloc::{AllocError, Global};
use std::cell::Cell;
use std::sync::Arc;

/// The most desks that a book has.
pub(crate) const MAX_DESKS: usize = 65_536;

/// The clients of the desks, in order, or `None` if one is named twice.
pub(crate) fn name_clients<S: Setup>(
    alloc: Global,
    desks: &[ClientDesk<S>],
) -> Result<Option<IndexSet<ClientId>>, AllocError>
    ensures apart { IfOk result (λ names. IsSome names ↔ AreApart (λ d. d.client) (map client_side desks.now)) }
    ensures named { IfOk result (λ names. IfSome names (λ s. s.keys ≡ map (λ d. d.client) desks.now)) }
{
    let mut names = IndexSet::with_capacity(alloc, desks.len())?;
    for desk in desks {
        if !names.insert(desk.client)? {
            return Ok(None);
        }
    }
    Ok(Some(names))
}

/// Whether no worker is named twice.
fn are_apart(alloc: Global, workers: &[WorkerId]) -> Result<bool, AllocError>
    ensures { IfOk result (λ apart. IsTrue apart ↔ AreApart (λ w. w.0) workers.now) }
{
    let mut names = IndexSet::with_capacity(alloc, workers.len())?;
    for worker in workers {
        if !names.insert(*worker)? {
            return Ok(false);
        }
    }
    Ok(true)
}

/// Room for a pass: the names of the clients, which the passes share, and no till yet.
#[derive(Drop)]
pub(crate) struct PassRoom<S: Setup> {
    pub(crate) clients: Arc<IndexSet<ClientId>, Global>,
    pub(crate) units: Vec<GrantTills<S>>,
}

pub(crate) fn room_for<S: Setup>(
    alloc: Global,
    clients: &Arc<IndexSet<ClientId>, Global>,
) -> Result<PassRoom<S>, AllocError>
    ensures { IfOk result (IsRoom (arc_value clients.now).keys) }
{
    let units = Vec::with_capacity(alloc, clients.len())?;
    let clients = Arc::try_clone(clients)?;
    Ok(PassRoom { clients, units })
}

/// Room for the pass of each worker.
fn rooms_for<S: Setup>(
    alloc: Global,
    desks: &[ClientDesk<S>],
    workers: usize,
) -> Result<Vec<PassRoom<S>>, AllocError>
    requires { AreApart (λ d. d.client) (map client_side desks.now) }
    ensures rooms { IfOk result (λ rooms. AllByRecursion (IsRoom (map (λ d. d.client) desks.now)) rooms.items) }
    ensures as_many { IfOk result (λ rooms. length rooms.items ≡ workers) }
{
    let Some(clients) = name_clients(alloc, desks)? else {
        unreachable!()
    };
    let clients = Arc::new(alloc, clients)?;
    let mut rooms = Vec::with_capacity(alloc, workers)?;
    for _ in 0..workers {
        let room = room_for(alloc, &clients)?;
        rooms.push(room)?;
    }
    Ok(rooms)
}

/// Whether the limits are kept: of the history, of the desks, and of the numbers that the mint has left.
fn are_limits(workers: usize, desks: usize, left: u64, most: u32) -> bool
    ensures { IsTrue result ↔ AreBookLimits workers desks left most }
{
    0 < most
        && most <= MAX_EVENTS
        && desks <= MAX_DESKS
        && 0 < left
        && workers as u64 <= (left - 1) / BOOKS_PER_WORKER
}

/// The clients of the desks, in order: refused `Twice`, `Memory`.
fn name_all<S: Setup>(
    alloc: Global,
    workers: &[WorkerId],
    desks: &[ClientDesk<S>],
) -> Result<IndexSet<ClientId>, NewFault>
    ensures once { OnOk result (AreNamedOnce workers.now (map client_side desks.now)) }
    ensures named { IfOk result (λ clients. clients.keys ≡ map (λ d. d.client) desks.now) }
    ensures twice { IsErrOf result NewFault.Twice → AreNamedOnce workers.now (map client_side desks.now) → ⊥ }
    ensures limit { IsErrOf result NewFault.Limit → ⊥ }
{
    let Some(clients) = name_clients(alloc, desks)? else {
        return Err(NewFault::Twice);
    };
    if !are_apart(alloc, workers)? {
        return Err(NewFault::Twice);
    }
    Ok(clients)
}

/// Room for the workers and their passes.
#[derive(Drop)]
pub(crate) struct Room<S: Setup> {
    pub(crate) rooms: Vec<PassRoom<S>>,
    pub(crate) seats: Vec<Seat<S>>,
    pub(crate) passes: Vec<WorkerPass<S>>,
}

fn make_room<S: Setup>(
    alloc: Global,
    desks: &[ClientDesk<S>],
    workers: usize,
) -> Result<Room<S>, AllocError>
    requires { AreApart (λ d. d.client) (map client_side desks.now) }
    ensures { IfOk result (IsRoomFor workers (map (λ d. d.client) desks.now)) }
{
    let rooms = rooms_for(alloc, desks, workers)?;
    let seats = Vec::with_capacity(alloc, workers)?;
    let passes = Vec::with_capacity(alloc, workers)?;
    Ok(Room {
        rooms,
        seats,
        passes,
    })
}

/// What a book is made of, before anything is opened.
#[derive(Drop)]
pub(crate) struct Parts<T: Tag, S: Setup> {
    pub(crate) history: EventHistory<T>,
    pub(crate) clients: IndexSet<ClientId>,
    pub(crate) room: Room<S>,
}

/// The parts of a book, for a mint that has this number of books left: refused `Limit`, `Twice`, `Memory`.
pub(crate) fn make_parts<T: Tag, S: Setup>(
    alloc: Global,
    workers: &[WorkerId],
    desks: &[ClientDesk<S>],
    left: u64,
    most: u32,
) -> Result<Parts<T, S>, NewFault>
    ensures limit { IsErrOf result NewFault.Limit ↔ (AreBookLimits (length workers.now) (length desks.now) left most → ⊥) }
    ensures twice { IsErrOf result NewFault.Twice → AreNamedOnce workers.now (map client_side desks.now) → ⊥ }
    ensures limits { OnOk result (AreBookLimits (length workers.now) (length desks.now) left most) }
    ensures once { OnOk result (AreNamedOnce workers.now (map client_side desks.now)) }
    ensures events { IfOk result (λ parts. parts.history ≡ record { events = []; most = most; room = 0 }) }
    ensures clients { IfOk result (λ parts. parts.clients.keys ≡ map (λ d. d.client) desks.now) }
    ensures room { IfOk result (λ parts. IsRoomFor (length workers.now) (map (λ d. d.client) desks.now) parts.room) }
{
    if !are_limits(workers.len(), desks.len(), left, most) {
        return Err(NewFault::Limit);
    }
    let clients = name_all(alloc, workers, desks)?;
    let room = make_room(alloc, desks, workers.len())?;
    let Ok(history) = EventHistory::new(alloc, most) else {
        unreachable!()
    };
    Ok(Parts {
        history,
        clients,
        room,
    })
}

/// The next book of the mint, and a till of it.
fn open_book<S: Setup>(mint: &mut Mint<S>) -> (Book<S>, Till<S>)
    requires { 0 < mint.old.left }
    ensures book { result.0 ≡ new_book mint.old.opened }
    ensures till { result.1 ≡ new_till mint.old.opened }
    ensures mint { mint.new ≡ record { opened = mint.old.opened + 1; left = mint.old.left - 1 } }
{
    let Ok(mut book) = mint.open() else {
        unreachable!()
    };
    let Ok(till) = book.till() else {
        unreachable!()
    };
    (book, till)
}

/// The books of a worker, and a till of each.
fn open_worker<S: Setup>(mint: &mut Mint<S>) -> (WorkerBooks<S>, WorkerTills<S>)
    requires { books_per_worker ≤ mint.old.left }
    ensures books { result.0 ≡ map_counts new_book (numbers_from mint.old.opened) }
    ensures tills { result.1 ≡ map_counts new_till (numbers_from mint.old.opened) }
    ensures mint { mint.new ≡ record { opened = mint.old.opened + books_per_worker; left = mint.old.left - books_per_worker } }
{
    let (calls, calls_till) = open_book(mint);
    let (misses, misses_till) = open_book(mint);
    let (tokens, tokens_till) = open_book(mint);
    let (grants, grants_till) = open_book(mint);
    let (granted, granted_till) = open_book(mint);
    let (cost, cost_till) = open_book(mint);
    let books = WorkerCounts {
        calls,
        misses,
        tokens,
        grants,
        granted,
        cost,
    };
    let tills = WorkerCounts {
        calls: calls_till,
        misses: misses_till,
        tokens: tokens_till,
        grants: grants_till,
        granted: granted_till,
        cost: cost_till,
    };
    (books, tills)
}

/// A till of each book of a phase.
fn open_phase<S: Setup>(books: &mut PhaseBooks<S>) -> PhaseTills<S>
    requires { HasPhaseRoom (phase_accounts books.old) }
    ensures books { phase_accounts books.new ≡ phase_with_tills 1 (phase_accounts books.old) }
    ensures tills { phase_holdings result ≡ new_phase_tills (phase_accounts books.old) }
{
    let Ok(grants) = books.grants.till() else {
        unreachable!()
    };
    let Ok(cost) = books.cost.till() else {
        unreachable!()
    };
    PhaseTills { grants, cost }
}

/// A till of each grant book of a desk.
fn open_unit<S: Setup>(desk: &mut ClientDesk<S>) -> GrantTills<S>
    requires { HaveRoom (client_side desk.old).books }
    ensures desk { client_side desk.new ≡ desk_with_tills 1 (client_side desk.old) }
    ensures unit { grant_holdings result ≡ new_unit (client_side desk.old) }
{
    GrantTills {
        reservation: open_phase(&mut desk.books.reservation),
        priority: open_phase(&mut desk.books.priority),
    }
}

/// A till of each grant book of each desk, behind those that are there, in room that was made.
pub(crate) fn open_units<S: Setup>(desks: &mut [ClientDesk<S>], units: &mut Vec<GrantTills<S>>)
    requires some_left { (k : ℕ) → k < length desks.old → HaveRoom (slice_index_or (map client_side desks.old) k no_desk).books }
    requires room { length units.old.items + length desks.old ≤ vec_capacity units.old }
    ensures desks { map client_side desks.new ≡ map (desk_with_tills 1) (map client_side desks.old) }
    ensures units { map grant_holdings units.new.items ≡ map grant_holdings units.old.items ++ map new_unit (map client_side desks.old) }
{
    for i in 0..desks.len() {
        let unit = open_unit(&mut desks[i]);
        units.push(unit).unwrap();
    }
}

/// Opens the books of a worker, and its pass, in room that was made.
pub(crate) fn open_one<S: Setup>(
    mint: &mut Mint<S>,
    worker: WorkerId,
    place: usize,
    desks: &mut [ClientDesk<S>],
    room: PassRoom<S>,
) -> (Seat<S>, WorkerPass<S>)
    requires left { books_per_worker ≤ mint.old.left }
    requires some_left { (k : ℕ) → k < length desks.old → HaveRoom (slice_index_or (map client_side desks.old) k no_desk).books }
    requires empty { length room.units.items ≡ 0 }
    requires room { length desks.old ≤ vec_capacity room.units }
    ensures seat { worker_side result.0 ≡ new_worker (length desks.old) mint.old.opened worker }
    ensures pass { pass_state result.1 ≡ new_pass place mint.old.opened (arc_value room.clients).keys (map client_side desks.old) worker }
    ensures desks { map client_side desks.new ≡ map (desk_with_tills 1) (map client_side desks.old) }
    ensures mint { mint.new ≡ record { opened = mint.old.opened + books_per_worker; left = mint.old.left - books_per_worker } }
{
    let PassRoom { clients, mut units } = room;
    let (books, tills) = open_worker(mint);
    open_units(desks, &mut units);
    let pass = WorkerPass {
        worker,
        place,
        tills,
        clients,
        units,
        granted: None,
        recent: Cell::new(0),
    };
    let seat = Seat {
        worker,
        renewed: 0,
        reach: desks.len(),
        books,
    };
    (seat, pass)
}

/// Opens the books of each worker, and its pass, in room that was made.
pub(crate) fn open_workers<S: Setup>(
    mint: &mut Mint<S>,
    workers: &[WorkerId],
    desks: &mut [ClientDesk<S>],
    rooms: Vec<PassRoom<S>>,
    seats: &mut Vec<Seat<S>>,
    passes: &mut Vec<WorkerPass<S>>,
)
    requires few { length workers.now ≤ max_workers }
    requires left { books_per_worker * length workers.now ≤ mint.old.left }
    requires new { (server : ℕ) × AllByRecursion (IsNewDesk server) (map client_side desks.old) }
    requires rooms { AllByRecursion (IsRoom (map (λ d. d.client) desks.old)) rooms.items }
    requires as_many { length rooms.items ≡ length workers.now }
    requires seats { (seats.old.items ≡ []) × (length workers.now ≤ vec_capacity seats.old) }
    requires passes { (passes.old.items ≡ []) × (length workers.now ≤ vec_capacity passes.old) }
    ensures seats { map worker_side seats.new.items ≡ new_workers (length (map client_side desks.old)) mint.old.opened workers.now }
    ensures passes { map pass_state passes.new.items
        ≡ new_passes 0 mint.old.opened (map (λ d. d.client) desks.old) (map client_side desks.old) workers.now }
    ensures desks { map client_side desks.new ≡ map (desk_with_tills (length workers.now)) (map client_side desks.old) }
    ensures opened { mint.new.opened ≡ mint.old.opened + books_per_worker * length workers.now }
    ensures left { mint.new.left + books_per_worker * length workers.now ≡ mint.old.left }
{
    let mut rooms = rooms;
    for place in 0..workers.len() {
        let Some(room) = rooms.pop() else {
            unreachable!()
        };
        let (seat, pass) = open_one(mint, workers[place], place, desks, room);
        seats.push(seat).unwrap();
        passes.push(pass).unwrap();
    }
}

/// The accounts of an empty history, with the workers' books and the desks, and a pass for each worker.
pub(crate) fn open_accounts<T: Tag, S: Setup>(
    server: ServerId,
    workers: &[WorkerId],
    desks: Vec<ClientDesk<S>>,
    mint: &mut Mint<S>,
    parts: Parts<T, S>,
) -> (Accounts<T, S>, Vec<WorkerPass<S>>)
    requires few { length workers.now ≤ max_workers }
    requires left { books_per_worker * length workers.now + 1 ≤ mint.old.left }
    requires new { AllByRecursion (IsNewDesk server.0) (map client_side desks.items) }
    requires once { AreNamedOnce workers.now (map client_side desks.items) }
    requires empty { parts.history.events ≡ [] }
    requires no_room { parts.history.room ≡ 0 }
    requires some { 0 < parts.history.most }
    requires limit { parts.history.most ≤ max_events }
    requires clients { parts.clients.keys ≡ map (λ d. d.client) desks.items }
    requires room { IsRoomFor (length workers.now) (map (λ d. d.client) desks.items) parts.room }
    ensures accounts { result.0 ≡ new_accounts_state server.0 parts.history.most mint.old.opened workers.now (map client_side desks.items) }
    ensures passes { map pass_state result.1.items
        ≡ new_passes 0 mint.old.opened (map (λ d. d.client) desks.items) (map client_side desks.items) workers.now }
    ensures opened { mint.new.opened ≡ mint.old.opened + (books_per_worker * length workers.now + 1) }
    ensures left { mint.new.left + (books_per_worker * length workers.now + 1) ≡ mint.old.left }
{
    let Parts {
        history,
        clients,
        room,
    } = parts;
    let Room {
        rooms,
        mut seats,
        mut passes,
    } = room;
    let mut desks = desks;
    open_workers(mint, workers, &mut desks, rooms, &mut seats, &mut passes);
    let Ok((number, list)) = mint.open_list() else {
        unreachable!()
    };
    let accounts = Accounts {
        server,
        history: SegmentedHistory::new(number, list, history),
        workers: seats,
        clients,
        desks,
        cost: 0,
    };
    (accounts, passes)
}
