//! A lock with two clients of server 0.
ghost use Rattle.std.specs.Prelude.{◌≡◌, ◌≤◌, ℕ, length, map, IfOk};
ghost use Rattle.std.specs.List.{AllByRecursion};
ghost use Rattle.dmc_ledger.specs.Bundles.{client_side, new_server_side, server_side};
ghost use Rattle.dmc_book.specs.Opening.{IsNewDesk};

use dmc_book::fault::NewFault;
use dmc_book::pass::WorkerPass;
use dmc_index::list_index::ListIndexes;
use dmc_ledger::desk::{ClientDesk, ServerDesk, open_pair};
use dmc_ledger::mint::Mint;
use dmc_ledger::setup::Setup;
use dmc_qlock::lock::QueueLock;
use dmc_tag::reply::Pulled;
use dmc_tests_setup::opening::{LONG, ONE, ZERO, both, drop_book, open_book, wait_config};
use dmc_tests_setup::tracker_setup::{open_tracker_of, tracker_desks};
use dmc_tick::tick::TickTag;
use dmc_tlock::book::TrackerBook;
use dmc_tlock::pass::ClientPass;
use dmc_types::config::{Counting, PhaseType, QueueConfig};
use dmc_types::cost::Cost;
use dmc_types::ids::{ClientId, Token, WorkerId};
use std::alloc::Global;
use std::test::Fail;

pub(crate) type Lock<S> = QueueLock<TickTag, ListIndexes, S>;

pub(crate) const TWO: ClientId = ClientId(2);

/// A grant of this cost in phase Priority.
pub(crate) fn grant_of_cost(client: ClientId, token: u32, cost: Cost) -> Pulled {
    Pulled::Returning {
        client,
        token: Token(token),
        phase: PhaseType::Priority,
        cost,
        beyond: false,
    }
}

/// A grant of cost 1.
pub(crate) fn grant(client: ClientId, token: u32) -> Pulled {
    grant_of_cost(client, token, Cost::ONE)
}

/// A client's tracker of server 0, and its tills.
#[derive(Drop)]
pub(crate) struct Client<S: Setup> {
    pub(crate) id: ClientId,
    pub(crate) tracker: TrackerBook<S>,
    pub(crate) tills: ClientPass<S>,
}

/// The tracker of a client and its one desk, and its tills.
fn client_of<S: Setup>(alloc: Global, id: ClientId, side: ServerDesk<S>) -> Result<Client<S>, Fail>
    requires { (n : ℕ) × (server_side side ≡ new_server_side id.0 0 n) }
{
    let sides = tracker_desks(alloc, id, side)?;
    let (tracker, tills) = open_tracker_of(alloc, id, sides, (999, 999), Counting::All)?;
    Ok(Client { id, tracker, tills })
}

/// A client of server 0, and its desk there.
pub(crate) fn open_client<S: Setup>(
    alloc: Global,
    mint: &mut Mint<S>,
    id: ClientId,
) -> Result<(ClientDesk<S>, Client<S>), Fail>
    ensures { IfOk result (λ opened. IsNewDesk 0 (client_side opened.0)) }
{
    let (desk, side) = open_pair(mint, id, ZERO)?;
    Ok((desk, client_of(alloc, id, side)?))
}

/// Clients 1 and 2 of server 0, and their desks there.
#[derive(Drop)]
pub(crate) struct Clients<S: Setup> {
    pub(crate) desks: Vec<ClientDesk<S>>,
    pub(crate) one: Client<S>,
    pub(crate) two: Client<S>,
}

/// The desks of two clients.
fn client_desks<S: Setup>(
    alloc: Global,
    one: ClientDesk<S>,
    two: ClientDesk<S>,
) -> Result<Vec<ClientDesk<S>>, Fail>
    requires one { IsNewDesk 0 (client_side one) }
    requires two { IsNewDesk 0 (client_side two) }
    ensures { IfOk result (λ desks. AllByRecursion (IsNewDesk 0) (map client_side desks.items)) }
{
    both(alloc, one, two)
}

pub(crate) fn open_clients<S: Setup>(alloc: Global, mint: &mut Mint<S>) -> Result<Clients<S>, Fail>
    ensures { IfOk result (λ clients. AllByRecursion (IsNewDesk 0) (map client_side clients.desks.items)) }
{
    let (here, one) = open_client(alloc, mint, ONE)?;
    let (there, two) = open_client(alloc, mint, TWO)?;
    let desks = client_desks(alloc, here, there)?;
    Ok(Clients { desks, one, two })
}

/// The lock of the desks' server, and the passes of its workers. The history behind it may have `most` events.
pub(crate) fn open_lock<S: Setup>(
    alloc: Global,
    config: QueueConfig,
    mint: &mut Mint<S>,
    desks: Vec<ClientDesk<S>>,
    workers: &[WorkerId],
    most: u32,
) -> Result<(Lock<S>, Vec<WorkerPass<S>>), NewFault>
    requires few { length workers.now ≤ 3 }
    requires new { AllByRecursion (IsNewDesk 0) (map client_side desks.items) }
{
    let (book, passes) = open_book(alloc, config, ZERO, mint, desks, workers, most)?;
    Ok((QueueLock::new(book), passes))
}

/// Drops a lock.
pub(crate) fn drop_lock<S: Setup>(lock: Lock<S>) {
    drop_book(lock.into_book());
}

/// A server's lock with clients 1 and 2, and the passes of its workers.
#[derive(Drop)]
pub(crate) struct Opened<S: Setup> {
    pub(crate) lock: Lock<S>,
    pub(crate) one: Client<S>,
    pub(crate) two: Client<S>,
    pub(crate) passes: Vec<WorkerPass<S>>,
}

/// The history behind the lock may have `most` events.
pub(crate) fn open<S: Setup>(
    alloc: Global,
    mint: &mut Mint<S>,
    workers: &[WorkerId],
    most: u32,
) -> Result<Opened<S>, Fail>
    requires { length workers.now ≤ 3 }
{
    let config = wait_config(LONG)?;
    let Clients { desks, one, two } = open_clients(alloc, mint)?;
    match open_lock(alloc, config, mint, desks, workers, most) {
        Ok((lock, passes)) => Ok(Opened {
            lock,
            one,
            two,
            passes,
        }),
        Err(cause) => {
            drop((one, two));
            Err(cause.into())
        }
    }
}

/// The last of the passes.
pub(crate) fn last_pass<S: Setup>(passes: &mut Vec<WorkerPass<S>>) -> Result<WorkerPass<S>, Fail> {
    match passes.pop() {
        Some(pass) => Ok(pass),
        None => Err(Fail::new("a pass for each worker")),
    }
}

/// The last two passes.
pub(crate) fn last_two<S: Setup>(
    passes: &mut Vec<WorkerPass<S>>,
) -> Result<(WorkerPass<S>, WorkerPass<S>), Fail> {
    let second = last_pass(passes)?;
    Ok((last_pass(passes)?, second))
}

/// A lock of worker 7, the worker's pass, and client 1. The history may have `most` events.
pub(crate) fn open_one<S: Setup>(
    alloc: Global,
    mint: &mut Mint<S>,
    most: u32,
) -> Result<(Lock<S>, WorkerPass<S>, Client<S>), Fail> {
    let Opened {
        lock,
        one,
        two,
        mut passes,
    } = open(alloc, mint, &[WorkerId(7)], most)?;
    let pass = last_pass(&mut passes);
    drop((two, passes));
    match pass {
        Ok(pass) => Ok((lock, pass, one)),
        Err(fail) => {
            drop(one);
            drop_lock(lock);
            Err(fail)
        }
    }
}

/// The pass of a lock, which is dropped.
pub(crate) fn open_other<S: Setup>(
    alloc: Global,
    mint: &mut Mint<S>,
) -> Result<WorkerPass<S>, Fail> {
    let (lock, pass, client) = open_one(alloc, mint, 8)?;
    drop(client);
    drop_lock(lock);
    Ok(pass)
}
