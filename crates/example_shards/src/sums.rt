//! What the recorded events of a shard say came in, of each client.
use crate::opening::CLIENTS;
use anyhow::{Result, bail};
use dmclock::locks::{Segment, Setup};
use dmclock::shards::Counts;
use dmclock::{ClientId, Command, Event, Reply, ReqParams, TickTag};

/// The counts of the stamps that a shard's queue took, summed for each client.
#[derive(Drop)]
pub struct Sums {
    of_clients: [Counts; CLIENTS as usize],
}

impl Sums {
    /// Those of a shard to which nothing came.
    pub fn none() -> Sums {
        Sums {
            of_clients: [Counts::none(); CLIENTS as usize],
        }
    }

    /// Adds what a segment's events say.
    pub fn add_segment<S: Setup>(&mut self, segment: &Segment<TickTag, S>) -> Result<()> {
        let events = segment.events();
        for place in 0..events.len() {
            if let Some(event) = events.at(place) {
                self.add_event(event)?;
            }
        }
        Ok(())
    }

    /// Adds the stamp of a request that was taken.
    fn add_event(&mut self, event: Event<TickTag>) -> Result<()> {
        match (added(&event.command), event.reply) {
            (Some((client, counts)), Reply::Tagged(_)) => self.add(client, counts),
            _ => Ok(()),
        }
    }

    fn add(&mut self, client: ClientId, counts: Counts) -> Result<()> {
        let Some(sum) = self.of_clients.get_mut(client.0 as usize) else {
            bail!("an unknown client");
        };
        sum.delta = sum.delta.saturating_add(counts.delta);
        sum.rho = sum.rho.saturating_add(counts.rho);
        Ok(())
    }

    /// The sums of a client.
    pub fn of_client(&self, place: usize) -> Option<Counts> {
        self.of_clients.get(place).copied()
    }
}

/// The client of an add, and what its stamp counts.
fn added(command: &Command) -> Option<(ClientId, Counts)> {
    match command {
        Command::Add { client, params, .. } => Some((*client, counts_of(params))),
        _ => None,
    }
}

/// What a stamp counts.
fn counts_of(params: &ReqParams) -> Counts {
    Counts {
        delta: u64::from(params.delta()),
        rho: u64::from(params.rho()),
    }
}
