//! What is left once all threads have ended, settled.
use crate::auditing::Auditor;
use crate::opening::Opened;
use crate::requesting::Requester;
use crate::serving::Worker;
use crate::shared::{Client, SERVER, SHARDS, Shared};
use anyhow::{Result, bail};
use dmclock::locks::{Settled, Setup, TickLock, WorkerPass};
use dmclock::shards::{ArrivalBook, Counts};
use dmclock::{ServiceTracker, TickTag};
use std::alloc::Global;

/// The passes of each shard.
#[derive(Drop)]
struct Passes<S: Setup> {
    of_shards: Vec<Vec<WorkerPass<S>>>,
}

impl<S: Setup> Passes<S> {
    fn new(alloc: Global) -> Result<Passes<S>> {
        let mut of_shards = Vec::new(alloc);
        for _ in 0..SHARDS {
            of_shards.push(Vec::new(alloc))?;
        }
        Ok(Passes { of_shards })
    }

    fn add(&mut self, place: usize, pass: WorkerPass<S>) -> Result<()> {
        match self.of_shards.get_mut(place) {
            Some(passes) => Ok(passes.push(pass)?),
            None => bail!("there is no such shard"),
        }
    }

    fn add_requesters(&mut self, requesters: Vec<Requester<S>>) -> Result<()> {
        for requester in requesters {
            let Requester { passes, .. } = requester;
            for (place, pass) in passes.into_iter().enumerate() {
                self.add(place, pass)?;
            }
        }
        Ok(())
    }

    fn add_workers(&mut self, workers: Vec<Worker<S>>) -> Result<()> {
        for worker in workers {
            let Worker { shard, pass, .. } = worker;
            self.add(shard.0 as usize, pass)?;
        }
        Ok(())
    }
}

/// How many requests were granted. It is an error if one is left.
fn grants_of<S: Setup>(settled: &Settled<TickTag, S>) -> Result<u64> {
    if settled.left > 0 {
        bail!("{} requests are left", settled.left);
    }
    let mut grants: u64 = 0;
    for seat in settled.workers.as_slice() {
        grants = grants.saturating_add(seat.grants());
    }
    Ok(grants)
}

/// Settles the book of a shard's queue.
fn settle_queue<S: Setup>(
    alloc: Global,
    queue: TickLock<S>,
    passes: Vec<WorkerPass<S>>,
) -> Result<u64> {
    let mut book = queue.into_book();
    let settled = book.settle(alloc, passes);
    drop(book);
    match settled {
        Ok(settled) => grants_of(&settled),
        Err(_) => bail!("a pass is missing"),
    }
}

/// What a client's book sent to a shard is what the shard's queue recorded of the client.
fn judge_shard<S: Setup>(book: &ArrivalBook<S>, place: usize, auditor: &Auditor) -> Result<()> {
    let Some(status) = book.status(auditor.shard) else {
        bail!("the client has no such shard");
    };
    if Some(status.sent) != auditor.sums.of_client(place) {
        bail!("a shard did not take what was sent to it");
    }
    Ok(())
}

/// What came in of a client is what its tracker sent.
fn judge_tracker(tracker: &ServiceTracker, came: Counts) -> Result<()> {
    let Some((delta, rho)) = tracker.sent(SERVER) else {
        bail!("the tracker has no server");
    };
    if came != (Counts { delta, rho }) {
        bail!("a tracker sent what did not come");
    }
    Ok(())
}

/// Whether each client's trackers and the shards' queues counted the same.
fn judge<S: Setup>(clients: Vec<Client<S>>, auditors: &[Auditor]) -> Result<()> {
    for (place, client) in clients.into_iter().enumerate() {
        let Client {
            arrivals,
            tracker,
            ..
        } = client;
        let book = arrivals.into_book();
        judge_tracker(&tracker.into_inner(), book.came())?;
        for auditor in auditors {
            judge_shard(&book, place, auditor)?;
        }
    }
    Ok(())
}

/// Settles the book of each shard's queue, and judges what the clients' threads counted. Returns how many requests were granted.
pub fn settle<S: Setup>(alloc: Global, opened: Opened<S>) -> Result<u64> {
    let Opened {
        shared,
        requesters,
        workers,
        auditors,
    } = opened;
    let mut passes = Passes::new(alloc)?;
    passes.add_requesters(requesters)?;
    passes.add_workers(workers)?;
    let Shared {
        server,
        clients,
        ..
    } = shared;
    judge(clients, auditors.as_slice())?;
    let Passes { of_shards } = passes;
    let mut grants: u64 = 0;
    for (queue, of_shard) in server.into_locks().into_iter().zip(of_shards) {
        grants = grants.saturating_add(settle_queue(alloc, queue, of_shard)?);
    }
    Ok(grants)
}
