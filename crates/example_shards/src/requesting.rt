//! A client's thread: it makes the client's requests.
use crate::shared::{Client, SERVER, SHARDS, Shared};
use anyhow::{Error, Result, bail};
use dmclock::locks::{Setup, WorkerPass};
use dmclock::{ClientId, Cost, ReqParams, ServerId, Token};
use example_threads::flow::BATCH;
use std::rt::Clock;
use std::sync::Wait;

/// What a client's thread has of its own: a pass for each shard.
#[derive(Drop)]
pub struct Requester<S: Setup> {
    pub id: ClientId,
    pub passes: Vec<WorkerPass<S>>,
    pub requests: u32,
    pub fault: Option<Error>,
}

/// The shard of a request: nine of ten of a client's requests go to one shard, the others to each in turn.
fn shard_of(id: ClientId, number: u32) -> ServerId {
    let place = if number % 10 == 0 { number / 10 } else { id.0 };
    ServerId(place % SHARDS)
}

/// How many requests of a batch go to a shard.
fn requests_for(id: ClientId, first: u32, shard: ServerId) -> u32 {
    let mut count: u32 = 0;
    for number in first..first.saturating_add(BATCH) {
        if shard_of(id, number) == shard {
            count = count.saturating_add(1);
        }
    }
    count
}

impl<S: Setup> Requester<S> {
    /// Makes all requests. If that fails, all threads end.
    pub fn run<R: Wait + Clock>(&mut self, rt: &R, shared: &Shared<S>) {
        self.fault = self.request_all(rt, shared).err();
        if self.fault.is_some() {
            shared.give_up(rt);
        }
    }

    fn request_all<R: Wait + Clock>(&mut self, rt: &R, shared: &Shared<S>) -> Result<()> {
        let client = shared.client(self.id)?;
        for number in 0..self.requests {
            if number % BATCH == 0 {
                self.announce(rt, shared, number)?;
                client.served.wait_for(rt, number.saturating_sub(BATCH));
            }
            self.request(rt, shared, client, number)?;
        }
        Ok(())
    }

    /// Announces a batch of requests, each to its shard.
    fn announce<R: Wait>(&self, rt: &R, shared: &Shared<S>, first: u32) -> Result<()> {
        for place in 0..SHARDS {
            let shard = ServerId(place);
            shared
                .backlog(shard)?
                .announce(rt, requests_for(self.id, first, shard));
        }
        Ok(())
    }

    /// Makes a request: the client's tracker stamps it for the server, and it comes in at its shard.
    fn request<R: Wait + Clock>(
        &mut self,
        rt: &R,
        shared: &Shared<S>,
        client: &Client<S>,
        number: u32,
    ) -> Result<()> {
        let params = stamp(rt, client)?;
        let shard = shard_of(self.id, number);
        let token = Token(number % (2 * BATCH));
        let Some(pass) = self.passes.get_mut(shard.0 as usize) else {
            bail!("the client has no pass for the shard");
        };
        let at = shared.now(rt)?;
        shared
            .server
            .submit(rt, &client.arrivals, pass, shard, params, token, at)?;
        Ok(())
    }
}

/// What the client's tracker stamps a request for the server with.
fn stamp<S: Setup, R: Wait>(rt: &R, client: &Client<S>) -> Result<ReqParams> {
    Ok(client.tracker.lock(rt).get_req_params(SERVER, Cost::ONE)?)
}
