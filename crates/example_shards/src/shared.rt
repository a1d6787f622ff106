//! What all threads share.
use anyhow::{Result, bail};
use dmclock::locks::{Setup, TickBook};
use dmclock::shards::{ArrivalLock, ShardedServer};
use dmclock::{AtLimit, ClientId, FINE_HZ, Moment, QueueConfig, ServerId, ServiceTracker, Shares};
use example_threads::flow::{Backlog, Served};
use std::alloc::Global;
use std::rt::Clock;
use std::sync::{Mutex, Wait};
use std::time::Instant;

/// How many shards the server has.
pub const SHARDS: u32 = 4;

/// The first shard.
pub const FIRST: ServerId = ServerId(0);

/// The one server, as the clients' trackers know it.
pub const SERVER: ServerId = ServerId(0);

/// A client: what its requests brought to the shards, and its tracker, which in a cluster is where the client is.
#[derive(Drop)]
pub struct Client<S: Setup> {
    pub arrivals: ArrivalLock<S>,
    pub tracker: Mutex<ServiceTracker>,
    pub served: Served,
}

/// The server, its clients, and since when it runs.
#[derive(Drop)]
pub struct Shared<S: Setup> {
    pub alloc: Global,
    pub start: Instant,
    pub server: ShardedServer<TickBook<S>>,
    pub clients: Vec<Client<S>>,
    /// What waits for each shard's auditor.
    pub backlogs: Vec<Backlog>,
    /// How many events were replayed, of all shards.
    pub replayed: Mutex<u64>,
}

/// The configuration of each shard's queue.
pub fn config() -> Result<QueueConfig> {
    let minute = 60 * u64::from(FINE_HZ);
    let config = QueueConfig::new(u64::from(FINE_HZ), minute, 10 * minute, AtLimit::Wait)?;
    Ok(config.with_shares(Shares::Virtual))
}

impl<S: Setup> Shared<S> {
    /// The moment of the clock.
    pub fn now(&self, rt: &impl Clock) -> Result<Moment> {
        let nanos = u64::try_from(self.start.elapsed(rt)?.as_nanos())?;
        let Some(moment) = Moment::from_nanos(FINE_HZ, nanos) else {
            bail!("the clock is past the last moment");
        };
        Ok(moment)
    }

    /// A client.
    pub fn client(&self, id: ClientId) -> Result<&Client<S>> {
        match self.clients.get(id.0 as usize) {
            Some(client) => Ok(client),
            None => bail!("an unknown client"),
        }
    }

    /// What waits for a shard's auditor.
    pub fn backlog(&self, shard: ServerId) -> Result<&Backlog> {
        match self.backlogs.get(shard.0 as usize) {
            Some(backlog) => Ok(backlog),
            None => bail!("there is no such shard"),
        }
    }

    /// This many events more were replayed. Returns how many that are.
    pub fn add_replayed<R: Wait>(&self, rt: &R, more: u64) -> u64 {
        let mut replayed = self.replayed.lock(rt);
        let total = replayed.saturating_add(more);
        *replayed = total;
        total
    }

    /// No auditor waits from now on, and no client for one.
    pub fn end_backlogs<R: Wait>(&self, rt: &R) {
        for backlog in &self.backlogs {
            backlog.end(rt);
        }
    }

    /// Closes the server: the workers end once nothing is queued. No client waits from now on.
    pub fn close<R: Wait>(&self, rt: &R) {
        self.server.close(rt);
        for client in &self.clients {
            client.served.end(rt);
        }
    }

    /// A thread failed: all others end.
    pub fn give_up<R: Wait>(&self, rt: &R) {
        self.close(rt);
        self.end_backlogs(rt);
    }
}
