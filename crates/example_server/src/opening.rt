//! The server's queue with its first clients, those that come later, and what each thread has of its own.
ghost use Rattle.std.specs.Prelude.{◌≡◌, map, IfOk};
ghost use Rattle.std.specs.List.{AllByRecursion};
ghost use Rattle.dmclock.specs.Bundles.{client_side};
ghost use Rattle.dmclock.specs.Opening.{IsNewDesk};

use crate::requesting::{FIRST, Requester};
use crate::serving::Worker;
use crate::shared::{Client, SERVER, Shared, config};
use anyhow::{Result, bail};
use dmclock::locks::{
    ClientDesk, ClientPass, Mint, Setup, TickBook, TickLock, TrackerBook, TrackerLock, WorkerPass,
    open_pair,
};
use dmclock::{ClientId, Counting, WorkerId};
use example_threads::flow::{Backlog, Served};
use std::alloc::Global;
use std::time::Instant;

/// How many clients there are. Each submits with a pass of its own.
pub const CLIENTS: u32 = 4;

/// How many passes there are: one for each client, and one for each worker that pulls.
pub const PASSES: u32 = CLIENTS + 2;

/// How many events the queue keeps at most, and how many entries a tracker, until they are released.
const MAX_KEPT: u32 = 1 << 20;

/// How many completions a tracker counts at most.
const MAX_COMPLETIONS: u64 = 1 << 62;

/// What all threads share, and what each has of its own.
#[derive(Drop)]
pub struct Opened<S: Setup> {
    pub shared: Shared<S>,
    pub requesters: Vec<Requester<S>>,
    pub workers: Vec<Worker<S>>,
}

/// A client's tracker, and its tills of the tracker's books.
#[derive(Drop)]
struct Tracked<S: Setup> {
    tracker: TrackerLock<S>,
    tills: ClientPass<S>,
}

/// A client, and the queue's desk of it.
fn open_client<S: Setup>(
    alloc: Global,
    mint: &mut Mint<S>,
    id: ClientId,
) -> Result<(ClientDesk<S>, Tracked<S>)>
    ensures { IfOk result (λ opened. IsNewDesk 0 (client_side opened.0)) }
{
    let (desk, side) = open_pair(mint, id, SERVER)?;
    let sides = vec![in alloc; side]?;
    match TrackerBook::new(alloc, id, sides, MAX_COMPLETIONS, MAX_KEPT, Counting::All) {
        Ok((book, tills)) => {
            let tracker = TrackerLock::new(book);
            Ok((desk, Tracked { tracker, tills }))
        }
        Err(_) => bail!("a tracker could not be made"),
    }
}

/// The clients that have a desk from the start.
#[derive(Drop)]
struct First<S: Setup> {
    desks: Vec<ClientDesk<S>>,
    one: Tracked<S>,
    two: Tracked<S>,
}

/// Both desks.
fn both_desks<S: Setup>(
    alloc: Global,
    one: ClientDesk<S>,
    two: ClientDesk<S>,
) -> Result<Vec<ClientDesk<S>>>
    requires one { IsNewDesk 0 (client_side one) }
    requires two { IsNewDesk 0 (client_side two) }
    ensures { IfOk result (λ desks. AllByRecursion (IsNewDesk 0) (map client_side desks.items)) }
{
    Ok(vec![in alloc; one, two]?)
}

fn open_first<S: Setup>(alloc: Global, mint: &mut Mint<S>) -> Result<First<S>>
    ensures { IfOk result (λ first. AllByRecursion (IsNewDesk 0) (map client_side first.desks.items)) }
{
    let (here, one) = open_client(alloc, mint, ClientId(0))?;
    let (there, two) = open_client(alloc, mint, ClientId(1))?;
    let desks = both_desks(alloc, here, there)?;
    Ok(First { desks, one, two })
}

/// The queue of the server, which has these desks, behind its lock, and the passes.
fn open_queue<S: Setup>(
    alloc: Global,
    mint: &mut Mint<S>,
    desks: Vec<ClientDesk<S>>,
) -> Result<(TickLock<S>, Vec<WorkerPass<S>>)>
    requires { AllByRecursion (IsNewDesk 0) (map client_side desks.items) }
{
    let mut workers = [WorkerId(0); PASSES as usize];
    for (number, worker) in workers.iter_mut().enumerate() {
        *worker = WorkerId(number as u32);
    }
    match TickBook::new(alloc, config()?, SERVER, &workers, desks, mint, MAX_KEPT) {
        Ok((book, passes)) => Ok((TickLock::new(book), passes)),
        Err(fault) => bail!("the queue's book could not be made: {}", fault.cause),
    }
}

/// The server with its first clients. What is left of the passes is the workers'.
pub fn open<S: Setup>(
    alloc: Global,
    start: Instant,
    mint: &mut Mint<S>,
    requests: u32,
) -> Result<Opened<S>> {
    let First { desks, one, two } = open_first(alloc, mint)?;
    let (queue, mut passes) = open_queue(alloc, mint, desks)?;
    let mut opened = Opened::new(alloc, start, queue);
    opened.add(one, None, passes.pop(), requests)?;
    opened.add(two, None, passes.pop(), requests)?;
    opened.open_later(mint, &mut passes, requests)?;
    opened.add_workers(passes)?;
    Ok(opened)
}

impl<S: Setup> Opened<S> {
    /// A server without clients and workers.
    fn new(alloc: Global, start: Instant, queue: TickLock<S>) -> Opened<S> {
        Opened {
            shared: Shared {
                alloc,
                start,
                queue,
                clients: Vec::new(alloc),
                backlog: Backlog::new(),
            },
            requesters: Vec::new(alloc),
            workers: Vec::new(alloc),
        }
    }

    /// Adds the next client.
    fn add(
        &mut self,
        client: Tracked<S>,
        desk: Option<ClientDesk<S>>,
        pass: Option<WorkerPass<S>>,
        requests: u32,
    ) -> Result<()> {
        let Some(pass) = pass else {
            bail!("a client has no pass");
        };
        let id = ClientId(u32::try_from(self.requesters.len())?);
        let Tracked { tracker, tills } = client;
        let served = Served::new();
        self.shared.clients.push(Client { tracker, served })?;
        self.requesters.push(Requester {
            id,
            desk,
            pass,
            tills,
            requests,
            fault: None,
        })?;
        Ok(())
    }

    /// Adds the clients that come later. Their threads have their desks until the queue admits them.
    fn open_later(
        &mut self,
        mint: &mut Mint<S>,
        passes: &mut Vec<WorkerPass<S>>,
        requests: u32,
    ) -> Result<()> {
        for id in FIRST..CLIENTS {
            let (desk, client) = open_client(self.shared.alloc, mint, ClientId(id))?;
            self.add(client, Some(desk), passes.pop(), requests)?;
        }
        Ok(())
    }

    /// Adds a worker for each pass.
    fn add_workers(&mut self, passes: Vec<WorkerPass<S>>) -> Result<()> {
        for pass in passes {
            self.workers.push(Worker { pass, fault: None })?;
        }
        Ok(())
    }
}
