//! The server's shards, its clients, and what each thread has of its own.
use crate::auditing::Auditor;
use crate::requesting::Requester;
use crate::serving::Worker;
use crate::shared::{Client, SHARDS, Shared, config};
use crate::sums::Sums;
use anyhow::{Result, bail};
use dmclock::locks::{
    BOOKS_PER_PAIR, BOOKS_PER_WORKER, ClientDesk, Mint, Setup, TickBook, TickLock, WorkerPass,
};
use dmclock::shards::{ArrivalBook, ArrivalLock, ShardedServer};
use dmclock::{
    ClientId, ClientInfo, Command, Counting, Moment, Reply, ServerId, ServiceTracker, WorkerId,
};
use example_threads::flow::{Backlog, Served};
use std::alloc::Global;
use std::sync::{Mutex, Wait};
use std::time::Instant;

/// How many clients there are. Each submits with a pass of its own at each shard.
pub const CLIENTS: u32 = 4;

/// How many workers pull at each shard.
const WORKERS: u32 = 2;

/// How many passes there are at each shard.
const PASSES: u32 = CLIENTS + WORKERS;

/// The books that the mint opens for each shard: those of each client, those of each pass, and the list of the queue's segments.
const BOOKS_PER_SHARD: u64 = BOOKS_PER_PAIR * CLIENTS as u64 + BOOKS_PER_WORKER * PASSES as u64 + 1;

/// The books that the mint opens.
pub const BOOKS: u64 = SHARDS as u64 * BOOKS_PER_SHARD;

/// How many events a shard's queue keeps at most, until they are released.
const MAX_KEPT: u32 = 1 << 20;

/// A reservation, in requests a second. It divides `FINE_HZ`.
const RESERVATION: u32 = 1008;

/// The most that a client's trackers count.
const MAX_COMPLETIONS: u64 = 1 << 62;

/// What all threads share, and what each has of its own.
#[derive(Drop)]
pub struct Opened<S: Setup> {
    pub shared: Shared<S>,
    pub requesters: Vec<Requester<S>>,
    pub workers: Vec<Worker<S>>,
    pub auditors: Vec<Auditor>,
}

/// A shard's queue without clients, behind its lock, and its passes.
#[derive(Drop)]
struct Shard<S: Setup> {
    queue: TickLock<S>,
    passes: Vec<WorkerPass<S>>,
}

fn open_shard<S: Setup>(alloc: Global, mint: &mut Mint<S>, shard: ServerId) -> Result<Shard<S>> {
    let mut workers = [WorkerId(0); PASSES as usize];
    for (number, worker) in workers.iter_mut().enumerate() {
        *worker = WorkerId(number as u32);
    }
    let desks = Vec::new(alloc);
    match TickBook::new(alloc, config()?, shard, &workers, desks, mint, MAX_KEPT) {
        Ok((book, passes)) => Ok(Shard {
            queue: TickLock::new(book),
            passes,
        }),
        Err(fault) => bail!("a shard's book could not be made: {}", fault.cause),
    }
}

/// The server, and the passes of each shard.
#[derive(Drop)]
struct Shards<S: Setup> {
    server: ShardedServer<TickBook<S>>,
    passes: Vec<Vec<WorkerPass<S>>>,
}

fn open_shards<S: Setup>(alloc: Global, mint: &mut Mint<S>) -> Result<Shards<S>> {
    let mut queues = Vec::new(alloc);
    let mut passes = Vec::new(alloc);
    for number in 0..SHARDS {
        let shard = open_shard(alloc, mint, ServerId(number))?;
        queues.push(shard.queue)?;
        passes.push(shard.passes)?;
    }
    match ShardedServer::new(queues) {
        Ok(server) => Ok(Shards { server, passes }),
        Err(_) => bail!("the shards are not in order"),
    }
}

/// Takes a pass of each shard.
fn take_passes<S: Setup>(
    alloc: Global,
    passes: &mut [Vec<WorkerPass<S>>],
) -> Result<Vec<WorkerPass<S>>> {
    let mut taken = Vec::new(alloc);
    for of_shard in passes.iter_mut() {
        let Some(pass) = of_shard.pop() else {
            bail!("a shard has too few passes");
        };
        taken.push(pass)?;
    }
    Ok(taken)
}

/// Admits a client at each shard, and registers it there.
fn admit<S: Setup, R: Wait>(
    rt: &R,
    server: &ShardedServer<TickBook<S>>,
    id: ClientId,
    desks: Vec<ClientDesk<S>>,
    passes: &mut [WorkerPass<S>],
) -> Result<()> {
    for (desk, pass) in desks.into_iter().zip(passes.iter_mut()) {
        let Some(queue) = server.shard(desk.server) else {
            bail!("there is no such shard");
        };
        admit_at(rt, queue, id, desk, pass)?;
    }
    Ok(())
}

/// The rates of a client: the first two have reservations, so that requests are granted in both phases.
fn info_of(id: ClientId) -> Result<ClientInfo> {
    let reservation = if id.0 < 2 { Some(RESERVATION) } else { None };
    Ok(ClientInfo::new(reservation, id.0.saturating_add(1), None)?)
}

fn admit_at<S: Setup, R: Wait>(
    rt: &R,
    queue: &TickLock<S>,
    id: ClientId,
    desk: ClientDesk<S>,
    pass: &mut WorkerPass<S>,
) -> Result<()> {
    if let Err(fault) = queue.admit(rt, desk) {
        bail!("a client is not admitted: {}", fault.cause);
    }
    let command = Command::Register {
        client: id,
        info: info_of(id)?,
        at: Moment::zero(),
    };
    match queue.run(rt, pass, command)? {
        Reply::Registered => Ok(()),
        _ => bail!("a client is not registered"),
    }
}

/// The server with its clients and workers.
pub fn open<S: Setup, R: Wait>(
    rt: &R,
    alloc: Global,
    start: Instant,
    mint: &mut Mint<S>,
    requests: u32,
) -> Result<Opened<S>> {
    let Shards { server, mut passes } = open_shards(alloc, mint)?;
    let mut opened = Opened::new(alloc, start, server);
    for number in 0..CLIENTS {
        let of_client = take_passes(alloc, passes.as_mut_slice())?;
        opened.add_client(rt, mint, ClientId(number), of_client, requests)?;
    }
    opened.add_workers(passes)?;
    opened.add_auditors()?;
    Ok(opened)
}

impl<S: Setup> Opened<S> {
    /// A server without clients and workers.
    fn new(alloc: Global, start: Instant, server: ShardedServer<TickBook<S>>) -> Opened<S> {
        Opened {
            shared: Shared {
                alloc,
                start,
                server,
                clients: Vec::new(alloc),
                backlogs: Vec::new(alloc),
                replayed: Mutex::new(0),
            },
            requesters: Vec::new(alloc),
            workers: Vec::new(alloc),
            auditors: Vec::new(alloc),
        }
    }

    /// Adds the next client.
    fn add_client<R: Wait>(
        &mut self,
        rt: &R,
        mint: &mut Mint<S>,
        id: ClientId,
        passes: Vec<WorkerPass<S>>,
        requests: u32,
    ) -> Result<()> {
        let alloc = self.shared.alloc;
        let mut passes = passes;
        let (book, desks) = ArrivalBook::open(alloc, mint, id, SHARDS, MAX_COMPLETIONS)?;
        admit(rt, &self.shared.server, id, desks, passes.as_mut_slice())?;
        let tracker = ServiceTracker::new(alloc, 1, MAX_COMPLETIONS, Counting::All)?;
        self.shared.clients.push(Client {
            arrivals: ArrivalLock::new(book),
            tracker: Mutex::new(tracker),
            served: Served::new(),
        })?;
        self.requesters.push(Requester {
            id,
            passes,
            requests,
            fault: None,
        })?;
        Ok(())
    }

    /// Adds an auditor for each shard.
    fn add_auditors(&mut self) -> Result<()> {
        for number in 0..SHARDS {
            self.shared.backlogs.push(Backlog::new())?;
            self.auditors.push(Auditor {
                shard: ServerId(number),
                events: 0,
                sums: Sums::none(),
                fault: None,
            })?;
        }
        Ok(())
    }

    /// Adds a worker for each pass that is left.
    fn add_workers(&mut self, passes: Vec<Vec<WorkerPass<S>>>) -> Result<()> {
        for (place, of_shard) in passes.into_iter().enumerate() {
            for pass in of_shard {
                self.workers.push(Worker {
                    shard: ServerId(u32::try_from(place)?),
                    pass,
                    fault: None,
                })?;
            }
        }
        Ok(())
    }
}
