//! A book of worker 7 and client 1, and the client's tracker of server 0.
ghost use Rattle.std.specs.Prelude.{◌≡◌, ◌≤◌, ◌∷◌, [], length, map, IfOk};
ghost use Rattle.std.specs.List.{AllByRecursion};
ghost use Rattle.dmc_ledger.specs.Bundles.{client_side, server_side};
ghost use Rattle.dmc_tlock.specs.Opening.{AreNew};
ghost use Rattle.dmc_book.specs.Opening.{IsNewDesk};

use crate::tracker_setup::{open_tracker_of, tracker_desks};
use dmc_book::book::QueueBook;
use dmc_book::fault::NewFault;
use dmc_book::pass::WorkerPass;
use dmc_index::index::Indexes;
use dmc_index::list_index::ListIndexes;
use dmc_ledger::desk::{ClientDesk, ServerDesk, open_pair};
use dmc_ledger::mint::Mint;
use dmc_ledger::setup::Setup;
use dmc_tick::tick::TickTag;
use dmc_tlock::book::TrackerBook;
use dmc_tlock::pass::ClientPass;
use dmc_types::config::{AtLimit, Counting, QueueConfig};
use dmc_types::ids::{ClientId, ServerId, WorkerId};
use std::alloc::Global;
use std::test::Fail;

pub type Book<S> = QueueBook<TickTag, ListIndexes, S>;

pub const ZERO: ServerId = ServerId(0);

pub const ONE: ClientId = ClientId(1);

pub const SEVEN: WorkerId = WorkerId(7);

// An age that no client of a test reaches.
pub const LONG: u64 = 1 << 62;

/// Adds an item at the end of a vector.
pub fn push<X: Drop>(items: &mut Vec<X>, item: X) -> Result<(), Fail> {
    match items.push(item) {
        Ok(()) => Ok(()),
        Err(_) => Err(NewFault::Memory.into()),
    }
}

/// A vector of one item.
pub fn only<X: Drop>(alloc: Global, item: X) -> Result<Vec<X>, Fail>
    ensures { IfOk result (λ items. items.items ≡ item ∷ []) }
{
    let mut items = Vec::new(alloc);
    match items.push(item) {
        Ok(()) => Ok(items),
        Err(_) => Err(NewFault::Memory.into()),
    }
}

/// A vector of two items.
pub fn both<X: Drop>(alloc: Global, one: X, two: X) -> Result<Vec<X>, Fail>
    ensures { IfOk result (λ items. items.items ≡ one ∷ two ∷ []) }
{
    let mut items = only(alloc, one)?;
    match items.push(two) {
        Ok(()) => Ok(items),
        Err(_) => Err(NewFault::Memory.into()),
    }
}

/// The queue's desks.
fn client_desks<S: Setup>(alloc: Global, desk: ClientDesk<S>) -> Result<Vec<ClientDesk<S>>, Fail>
    requires { IsNewDesk 0 (client_side desk) }
    ensures { IfOk result (λ desks. AllByRecursion (IsNewDesk 0) (map client_side desks.items)) }
{
    only(alloc, desk)
}

/// The desks of client 1 and server 0.
pub fn open_desks<S: Setup>(
    alloc: Global,
    mint: &mut Mint<S>,
) -> Result<(Vec<ClientDesk<S>>, Vec<ServerDesk<S>>), Fail>
    ensures desks { IfOk result (λ opened. AllByRecursion (IsNewDesk 0) (map client_side opened.0.items)) }
    ensures sides { IfOk result (λ opened. AreNew 1 (map server_side opened.1.items)) }
{
    let (desk, side) = open_pair(mint, ONE, ZERO)?;
    let desks = client_desks(alloc, desk)?;
    Ok((desks, tracker_desks(alloc, ONE, side)?))
}

/// A book of worker 7 and client 1, the worker's pass, and the client's tracker with its pass.
#[derive(Drop)]
pub struct Opened<S: Setup> {
    pub book: Book<S>,
    pub pass: WorkerPass<S>,
    pub tracker: TrackerBook<S>,
    pub tills: ClientPass<S>,
}

/// Drops a book.
pub fn drop_book<S: Setup>(book: Book<S>) {
    drop(book);
}

/// Drops the books and their passes.
pub fn drop_opened<S: Setup>(opened: Opened<S>) {
    let Opened {
        book,
        pass,
        tracker,
        tills,
    } = opened;
    drop_book(book);
    drop(pass);
    drop((tracker, tills));
}

/// The queue's desks alone.
pub fn open_client_desks<S: Setup>(
    alloc: Global,
    mint: &mut Mint<S>,
) -> Result<Vec<ClientDesk<S>>, Fail>
    ensures { IfOk result (λ desks. AllByRecursion (IsNewDesk 0) (map client_side desks.items)) }
{
    let (desk, _) = open_pair(mint, ONE, ZERO)?;
    client_desks(alloc, desk)
}

/// A queue that waits at a limit. A clean idles and erases a client of the age.
pub fn wait_config(age: u64) -> Result<QueueConfig, NewFault> {
    match QueueConfig::new(1000, age, age, AtLimit::Wait) {
        Ok(config) => Ok(config),
        Err(_) => Err(NewFault::Limit),
    }
}

/// A server's book of the desks, and its passes. Its history may have `most` events.
pub fn open_book<I: Indexes<TickTag>, S: Setup>(
    alloc: Global,
    config: QueueConfig,
    server: ServerId,
    mint: &mut Mint<S>,
    desks: Vec<ClientDesk<S>>,
    workers: &[WorkerId],
    most: u32,
) -> Result<(QueueBook<TickTag, I, S>, Vec<WorkerPass<S>>), NewFault>
    requires few { length workers.now ≤ 3 }
    requires new { AllByRecursion (IsNewDesk server.0) (map client_side desks.items) }
{
    match QueueBook::new(alloc, config, server, workers, desks, mint, most) {
        Ok(made) => Ok(made),
        Err(fault) => Err(fault.cause),
    }
}

/// A book of worker 7 and the desks, and the worker's pass.
pub fn open_seven<S: Setup>(
    alloc: Global,
    mint: &mut Mint<S>,
    desks: Vec<ClientDesk<S>>,
    most: u32,
) -> Result<(Book<S>, WorkerPass<S>), Fail>
    requires { AllByRecursion (IsNewDesk 0) (map client_side desks.items) }
{
    let config = wait_config(LONG)?;
    let (book, mut passes) = open_book(alloc, config, ZERO, mint, desks, &[SEVEN], most)?;
    let pass = passes.pop();
    drop(passes);
    match pass {
        Some(pass) => Ok((book, pass)),
        None => {
            drop_book(book);
            Err(Fail::new("a pass for the worker"))
        }
    }
}

/// The tracker of a client and the desks, and its pass.
pub fn open_tracker<S: Setup>(
    alloc: Global,
    client: ClientId,
    sides: Vec<ServerDesk<S>>,
) -> Result<(TrackerBook<S>, ClientPass<S>), Fail>
    requires { AreNew client.0 (map server_side sides.items) }
{
    open_tracker_of(alloc, client, sides, (9, 9), Counting::All)
}

/// A book of worker 7 and client 1, and the worker's pass. Its history may have two events.
pub fn open_queue<S: Setup>(
    alloc: Global,
    mint: &mut Mint<S>,
) -> Result<(Book<S>, WorkerPass<S>), Fail> {
    let desks = open_client_desks(alloc, mint)?;
    open_seven(alloc, mint, desks, 2)
}

/// The pass of a book, which is dropped.
pub fn open_other<S: Setup>(alloc: Global, mint: &mut Mint<S>) -> Result<WorkerPass<S>, Fail> {
    let (book, pass) = open_queue(alloc, mint)?;
    drop_book(book);
    Ok(pass)
}

/// The history of the book may have `most` events.
pub fn open<S: Setup>(alloc: Global, mint: &mut Mint<S>, most: u32) -> Result<Opened<S>, Fail> {
    let (desks, sides) = open_desks(alloc, mint)?;
    let (tracker, tills) = open_tracker(alloc, ONE, sides)?;
    let (book, pass) = open_seven(alloc, mint, desks, most)?;
    Ok(Opened {
        book,
        pass,
        tracker,
        tills,
    })
}
