//! What all threads share.
use anyhow::{Result, bail};
use dmclock::locks::{Setup, TickLock, TrackerLock};
use dmclock::{AtLimit, ClientId, FINE_HZ, Moment, QueueConfig, ServerId, Shares};
use example_threads::flow::{Backlog, Served};
use std::alloc::Global;
use std::rt::Clock;
use std::sync::Wait;
use std::time::Instant;

/// The one server.
pub const SERVER: ServerId = ServerId(0);

/// A client as its own thread, the workers and the auditor see it.
#[derive(Drop)]
pub struct Client<S: Setup> {
    pub tracker: TrackerLock<S>,
    pub served: Served,
}

/// The server's queue, its clients, and since when it runs.
#[derive(Drop)]
pub struct Shared<S: Setup> {
    pub alloc: Global,
    pub start: Instant,
    pub queue: TickLock<S>,
    pub clients: Vec<Client<S>>,
    pub backlog: Backlog,
}

/// The configuration of the server's queue.
pub fn config() -> Result<QueueConfig> {
    let minute = 60 * u64::from(FINE_HZ);
    let config = QueueConfig::new(u64::from(FINE_HZ), minute, 10 * minute, AtLimit::Wait)?;
    Ok(config.with_shares(Shares::Virtual))
}

impl<S: Setup> Shared<S> {
    /// The moment of the clock.
    pub fn now(&self, rt: &impl Clock) -> Result<Moment> {
        let nanos = u64::try_from(self.start.elapsed(rt)?.as_nanos())?;
        let Some(moment) = Moment::from_nanos(FINE_HZ, nanos) else {
            bail!("the clock is past the last moment");
        };
        Ok(moment)
    }

    /// A client.
    pub fn client(&self, id: ClientId) -> Result<&Client<S>> {
        match self.clients.get(id.0 as usize) {
            Some(client) => Ok(client),
            None => bail!("an unknown client"),
        }
    }

    /// Closes the queue: the workers end once nothing is queued. No client waits from now on.
    pub fn close<R: Wait>(&self, rt: &R) {
        self.queue.close(rt);
        for client in &self.clients {
            client.served.end(rt);
        }
    }

    /// A thread failed: all others end.
    pub fn give_up<R: Wait>(&self, rt: &R) {
        self.close(rt);
        self.backlog.end(rt);
    }
}
