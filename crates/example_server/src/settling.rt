//! What is left once all threads have ended, settled.
use crate::opening::Opened;
use crate::requesting::Requester;
use crate::serving::Worker;
use crate::shared::{Client, Shared};
use anyhow::{Result, bail};
use dmclock::TickTag;
use dmclock::locks::{ClientPass, Settled, Setup, TickLock, TrackerLock, WorkerPass};
use std::alloc::Global;

/// All passes, and the clients' tills.
#[derive(Drop)]
struct Passes<S: Setup> {
    passes: Vec<WorkerPass<S>>,
    tills: Vec<ClientPass<S>>,
}

impl<S: Setup> Passes<S> {
    fn add_requesters(&mut self, requesters: Vec<Requester<S>>) -> Result<()> {
        for requester in requesters {
            let Requester { pass, tills, .. } = requester;
            self.passes.push(pass)?;
            self.tills.push(tills)?;
        }
        Ok(())
    }

    fn add_workers(&mut self, workers: Vec<Worker<S>>) -> Result<()> {
        for worker in workers {
            let Worker { pass, .. } = worker;
            self.passes.push(pass)?;
        }
        Ok(())
    }
}

/// How many requests were granted. It is an error if one is left.
fn grants_of<S: Setup>(settled: &Settled<TickTag, S>) -> Result<u64> {
    if settled.left > 0 {
        bail!("{} requests are left", settled.left);
    }
    let mut grants: u64 = 0;
    for seat in settled.workers.as_slice() {
        grants = grants.saturating_add(seat.grants());
    }
    Ok(grants)
}

/// Settles the queue's book.
fn settle_queue<S: Setup>(
    alloc: Global,
    queue: TickLock<S>,
    passes: Vec<WorkerPass<S>>,
) -> Result<u64> {
    let mut book = queue.into_book();
    let settled = book.settle(alloc, passes);
    drop(book);
    match settled {
        Ok(settled) => grants_of(&settled),
        Err(_) => bail!("a pass is missing"),
    }
}

/// Settles a tracker's book.
fn settle_tracker<S: Setup>(tracker: TrackerLock<S>, tills: ClientPass<S>) -> Result<()> {
    match tracker.into_book().settle(tills) {
        Ok(_) => Ok(()),
        Err(_) => bail!("a client's tills are missing"),
    }
}

/// Settles each tracker's book.
fn settle_trackers<S: Setup>(clients: Vec<Client<S>>, tills: Vec<ClientPass<S>>) -> Result<()> {
    for (client, tills) in clients.into_iter().zip(tills) {
        let Client { tracker, .. } = client;
        settle_tracker(tracker, tills)?;
    }
    Ok(())
}

/// Settles the queue's book and the trackers'. Returns how many requests were granted.
pub fn settle<S: Setup>(alloc: Global, opened: Opened<S>) -> Result<u64> {
    let Opened {
        shared,
        requesters,
        workers,
    } = opened;
    let mut all = Passes {
        passes: Vec::new(alloc),
        tills: Vec::new(alloc),
    };
    all.add_requesters(requesters)?;
    all.add_workers(workers)?;
    let Shared { queue, clients, .. } = shared;
    let Passes { passes, tills } = all;
    settle_trackers(clients, tills)?;
    settle_queue(alloc, queue, passes)
}
