//! A server's lock, and clients with a tracker each.
ghost use Rattle.std.specs.Prelude.{◌≤◌, ◌<◌, length, map, IfOk, IsTrue, OnOk};
ghost use Rattle.std.specs.List.{AllByRecursion};
ghost use Rattle.dmc_types.specs.Limits.{max_books, max_workers};
ghost use Rattle.dmc_ledger.specs.Bundles.{Covers, client_side, server_side, stamp_holdings};
ghost use Rattle.dmc_tlock.specs.Opening.{AreNew};
ghost use Rattle.dmc_book.specs.Opening.{IsNewDesk};

use crate::fault::Fault;
use crate::queues::HZ;
use dmc_book::book::QueueBook;
use dmc_book::pass::WorkerPass;
use dmc_book::per_count::BOOKS_PER_WORKER;
use dmc_index::index::Indexes;
use dmc_ledger::bundle::StampTills;
use dmc_ledger::desk::{BOOKS_PER_PAIR, ClientDesk, ServerDesk, open_pair};
use dmc_ledger::mint::Mint;
use dmc_ledger::setup::Setup;
use dmc_ledger::stamp::Stamp;
use dmc_ledger::unit::Unit;
use dmc_qlock::lock::QueueLock;
use dmc_tag::reply::Pulled;
use dmc_tag::tag::Tag;
use dmc_tlock::book::TrackerBook;
use dmc_tlock::pass::ClientPass;
use dmc_types::command::Command;
use dmc_types::config::{AtLimit, Counting, QueueConfig};
use dmc_types::cost::Cost;
use dmc_types::ids::{ClientId, ServerId, Token, WorkerId};
use dmc_types::info::ClientInfo;
use dmc_types::limits::{MAX_COMPLETIONS, MAX_EVENTS};
use dmc_types::moment::Moment;
use std::alloc::Global;
use std::sync::Wait;

/// The one server.
const SERVER: ServerId = ServerId(0);

/// The greatest number of clients, and of workers.
const MOST: u32 = 65_536;

/// A client's tracker of the server, its tills, and its next stamp.
#[derive(Drop)]
pub struct Client<S: Setup> {
    id: ClientId,
    tracker: TrackerBook<S>,
    tills: ClientPass<S>,
    stamp: Option<Stamp>,
}

/// The clients of a server, and their desks there.
#[derive(Drop)]
pub struct Clients<S: Setup> {
    pub desks: Vec<ClientDesk<S>>,
    pub clients: Vec<Client<S>>,
}

/// The number of books that the server's lock and its clients take: those of each client, those of each worker, and one.
pub fn book_count(clients: u32, workers: u32) -> Result<u64, Fault>
    ensures some { IfOk result (λ books. 0 < books) }
    ensures limit { IfOk result (λ books. books ≤ max_books) }
{
    if clients == 0 || clients > MOST || workers == 0 || workers > MOST {
        return Err(Fault::Usage);
    }
    Ok(BOOKS_PER_PAIR * u64::from(clients) + BOOKS_PER_WORKER * u64::from(workers) + 1)
}

/// The desks of a client and the server.
fn open_desks<S: Setup>(
    alloc: Global,
    mint: &mut Mint<S>,
    id: ClientId,
) -> Result<(ClientDesk<S>, Vec<ServerDesk<S>>), Fault>
    ensures desk { IfOk result (λ opened. IsNewDesk 0 (client_side opened.0)) }
    ensures sides { IfOk result (λ opened. AreNew id.0 (map server_side opened.1.items)) }
{
    let Ok((desk, side)) = open_pair(mint, id, SERVER) else {
        return Err(Fault::Usage);
    };
    let sides = vec![in alloc; side]?;
    Ok((desk, sides))
}

/// A client, and its desk.
fn open_client<S: Setup>(
    alloc: Global,
    mint: &mut Mint<S>,
    id: ClientId,
) -> Result<(ClientDesk<S>, Client<S>), Fault>
    ensures { IfOk result (λ opened. IsNewDesk 0 (client_side opened.0)) }
{
    let (desk, sides) = open_desks(alloc, mint, id)?;
    match TrackerBook::new(alloc, id, sides, MAX_COMPLETIONS, MAX_EVENTS, Counting::All) {
        Ok((tracker, tills)) => Ok((
            desk,
            Client {
                id,
                tracker,
                tills,
                stamp: None,
            },
        )),
        Err(_) => Err(Fault::Failed),
    }
}

/// Adds one more client.
fn push_client<S: Setup>(
    alloc: Global,
    mint: &mut Mint<S>,
    id: ClientId,
    desks: &mut Vec<ClientDesk<S>>,
    clients: &mut Vec<Client<S>>,
) -> Result<(), Fault>
    ensures { OnOk result (AllByRecursion (IsNewDesk 0) (map client_side desks.old.items) → AllByRecursion (IsNewDesk 0) (map client_side desks.new.items)) }
{
    let (desk, client) = open_client(alloc, mint, id)?;
    desks.push(desk)?;
    clients.push(client)?;
    Ok(())
}

/// The clients 0, 1, and so on.
pub fn open_clients<S: Setup>(
    alloc: Global,
    mint: &mut Mint<S>,
    count: u32,
) -> Result<Clients<S>, Fault>
    ensures { IfOk result (λ opened. AllByRecursion (IsNewDesk 0) (map client_side opened.desks.items)) }
{
    let mut desks = Vec::new(alloc);
    let mut clients = Vec::new(alloc);
    for id in 0..count {
        push_client(alloc, mint, ClientId(id), &mut desks, &mut clients)?;
    }
    Ok(Clients { desks, clients })
}

/// The workers 0, 1, and so on.
fn workers(alloc: Global, count: u32) -> Result<Vec<WorkerId>, Fault> {
    let workers = (0..count).map(|id| WorkerId(id)).collect(alloc)?;
    Ok(workers)
}

/// The configuration of a queue, and its workers.
pub fn config_and_workers(alloc: Global, count: u32) -> Result<(QueueConfig, Vec<WorkerId>), Fault>
    ensures { IfOk result (λ made. length made.1.items ≤ max_workers) }
{
    let config = QueueConfig::new(u64::from(HZ), 1, 1, AtLimit::Wait)?;
    let workers = workers(alloc, count)?;
    if workers.len() > MOST as usize {
        return Err(Fault::Usage);
    }
    Ok((config, workers))
}

/// The lock of a server with these desks, and the passes of its workers.
pub fn open_lock<T: Tag, I: Indexes<T>, S: Setup>(
    alloc: Global,
    mint: &mut Mint<S>,
    desks: Vec<ClientDesk<S>>,
    count: u32,
) -> Result<(QueueLock<T, I, S>, Vec<WorkerPass<S>>), Fault>
    requires { AllByRecursion (IsNewDesk 0) (map client_side desks.items) }
{
    let (config, workers) = config_and_workers(alloc, count)?;
    match QueueBook::new(
        alloc,
        config,
        SERVER,
        workers.as_slice(),
        desks,
        mint,
        MAX_EVENTS,
    ) {
        Ok((book, passes)) => Ok((QueueLock::new(book), passes)),
        Err(_) => Err(Fault::Failed),
    }
}

/// Registers the clients 0, 1, and so on.
pub fn register_all<T: Tag, I: Indexes<T>, S: Setup, R: Wait>(
    rt: &R,
    lock: &QueueLock<T, I, S>,
    pass: &mut WorkerPass<S>,
    count: u32,
) -> Result<(), Fault> {
    let info = ClientInfo::new(None, 1, None)?;
    for id in 0..count {
        let client = ClientId(id);
        let at = Moment::zero();
        if lock
            .run(rt, pass, Command::Register { client, info, at })
            .is_err()
        {
            return Err(Fault::Failed);
        }
    }
    Ok(())
}

/// Makes a stamp for the server.
fn next_stamp<S: Setup>(
    tracker: &mut TrackerBook<S>,
    tills: &mut ClientPass<S>,
) -> Result<Stamp, Fault> {
    let Some(tills) = tills.tills(SERVER) else {
        return Err(Fault::Usage);
    };
    match tracker.stamp(SERVER, Cost::ONE, tills) {
        Ok(stamp) => Ok(stamp),
        Err(_) => Err(Fault::Failed),
    }
}

/// Makes a client's next stamp.
pub fn stamp<S: Setup>(client: &mut Client<S>) -> Result<(), Fault> {
    client.stamp = Some(next_stamp(&mut client.tracker, &mut client.tills)?);
    Ok(())
}

/// Whether the tills cover the stamp.
fn covers<S: Setup>(tills: &StampTills<S>, stamp: &Stamp) -> bool
    ensures { IsTrue result → Covers (stamp_holdings tills.now) stamp.now.params }
{
    tills.stamps.amount() > 0
        && u64::from(stamp.params().delta()) <= tills.delta.amount()
        && u64::from(stamp.params().rho()) <= tills.rho.amount()
}

/// Submits a client's request with its stamp.
pub fn submit<T: Tag, I: Indexes<T>, S: Setup, R: Wait>(
    rt: &R,
    lock: &QueueLock<T, I, S>,
    pass: &mut WorkerPass<S>,
    client: &mut Client<S>,
    at: Moment,
) -> Result<(), Fault> {
    let Some(stamp) = client.stamp.take() else {
        return Err(Fault::Usage);
    };
    let Some(tills) = client.tills.tills(SERVER) else {
        return Err(Fault::Usage);
    };
    if !covers(tills, &stamp) {
        return Err(Fault::Usage);
    }
    match lock.submit(rt, pass, tills, stamp, Token(client.id.0), at) {
        Ok(_) => Ok(()),
        Err(_) => Err(Fault::Failed),
    }
}

/// The client of a grant of a pull, or `None` if it grants none.
pub fn pull<T: Tag, I: Indexes<T>, S: Setup, R: Wait>(
    rt: &R,
    lock: &QueueLock<T, I, S>,
    pass: &mut WorkerPass<S>,
    at: Moment,
) -> Option<ClientId> {
    match lock.pull(rt, pass, at) {
        Ok(Pulled::Returning { client, .. }) => Some(client),
        _ => None,
    }
}

/// Returns the unit of a grant to its client's tracker.
pub fn respond<S: Setup>(
    pass: &mut WorkerPass<S>,
    clients: &mut [Client<S>],
    unit: Unit,
) -> Result<(), Fault> {
    let Some(client) = clients.get_mut(unit.client().0 as usize) else {
        return Err(Fault::Usage);
    };
    let Some(tills) = pass.grant_tills(unit.client(), unit.phase()) else {
        return Err(Fault::Usage);
    };
    if !tills.holds(unit.cost()) {
        return Err(Fault::Usage);
    }
    match client.tracker.respond(unit, tills) {
        Ok(()) => Ok(()),
        Err(_) => Err(Fault::Failed),
    }
}
