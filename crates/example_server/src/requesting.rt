//! A client's thread: it makes the client's requests.
ghost use Rattle.std.specs.Prelude.{◌≡◌, IfOk, OnErr, OnOk};
ghost use Rattle.dmclock.specs.Bundles.{Covers, stamp_holdings};
ghost use Rattle.dmclock.specs.Moves.{tills_after_stamp, tills_after_submit};

use crate::shared::{Client, SERVER, Shared};
use anyhow::{Error, Result, bail};
use dmclock::locks::{
    ClientDesk, ClientPass, Setup, Stamp, StampTills, TickLock, TrackerLock, WorkerPass,
};
use dmclock::{ClientId, ClientInfo, Command, Cost, Moment, Reply, Token};
use example_threads::flow::BATCH;
use std::rt::Clock;
use std::sync::Wait;

/// How many clients have a desk at the queue from the start. The others are admitted later.
pub const FIRST: u32 = 2;

/// What a client's thread has of its own. The desk is of a client that comes later.
#[derive(Drop)]
pub struct Requester<S: Setup> {
    pub id: ClientId,
    pub desk: Option<ClientDesk<S>>,
    pub pass: WorkerPass<S>,
    pub tills: ClientPass<S>,
    pub requests: u32,
    pub fault: Option<Error>,
}

impl<S: Setup> Requester<S> {
    /// Comes, and makes all requests. If that fails, all threads end.
    pub fn run<R: Wait + Clock>(&mut self, rt: &R, shared: &Shared<S>) {
        self.fault = self.request_all(rt, shared).err();
        if self.fault.is_some() {
            shared.give_up(rt);
        }
    }

    fn request_all<R: Wait + Clock>(&mut self, rt: &R, shared: &Shared<S>) -> Result<()> {
        self.come(rt, shared)?;
        let client = shared.client(self.id)?;
        for number in 0..self.requests {
            if number % BATCH == 0 {
                shared.backlog.announce(rt, BATCH);
                client.served.wait_for(rt, number.saturating_sub(BATCH));
            }
            self.request(rt, shared, client, Token(number % (2 * BATCH)))?;
        }
        Ok(())
    }

    /// Registers the client, after it was admitted if it comes later.
    fn come<R: Wait + Clock>(&mut self, rt: &R, shared: &Shared<S>) -> Result<()> {
        if let Some(desk) = self.desk.take() {
            self.wait_for_turn(rt, shared)?;
            admit(rt, &shared.queue, desk)?;
        }
        let command = Command::Register {
            client: self.id,
            info: ClientInfo::new(None, self.id.0.saturating_add(1), None)?,
            at: shared.now(rt)?,
        };
        match shared.queue.run(rt, &mut self.pass, command)? {
            Reply::Registered => Ok(()),
            _ => bail!("a client is not registered"),
        }
    }

    /// Waits until one of the first clients has had a part of its requests served, less than a tenth.
    fn wait_for_turn<R: Wait>(&mut self, rt: &R, shared: &Shared<S>) -> Result<()> {
        let first = shared.client(ClientId(self.id.0 % FIRST))?;
        let batches = self.requests / (20 * BATCH);
        first.served.wait_for(rt, batches.saturating_mul(BATCH));
        Ok(())
    }

    /// Makes a request.
    fn request<R: Wait + Clock>(
        &mut self,
        rt: &R,
        shared: &Shared<S>,
        client: &Client<S>,
        token: Token,
    ) -> Result<()> {
        let Some(tills) = self.tills.tills(SERVER) else {
            bail!("the client has no tills of the server");
        };
        let stamp = stamp(rt, &client.tracker, tills)?;
        let at = shared.now(rt)?;
        submit(rt, &shared.queue, &mut self.pass, tills, stamp, token, at)
    }
}

/// Admits a client that comes later.
fn admit<S: Setup, R: Wait>(rt: &R, queue: &TickLock<S>, desk: ClientDesk<S>) -> Result<()> {
    match queue.admit(rt, desk) {
        Ok(()) => Ok(()),
        Err(fault) => bail!("a client is not admitted: {}", fault.cause),
    }
}

/// Stamps a request. The tills hold the stamp until it is submitted.
fn stamp<S: Setup, R: Wait>(
    rt: &R,
    tracker: &TrackerLock<S>,
    tills: &mut StampTills<S>,
) -> Result<Stamp>
    ensures covers { IfOk result (λ stamp. Covers (stamp_holdings tills.new) stamp.params) }
    ensures stamped { IfOk result (λ stamp. stamp_holdings tills.new ≡ tills_after_stamp stamp.params (stamp_holdings tills.old)) }
    ensures kept { OnErr result (tills.new ≡ tills.old) }
{
    match tracker.stamp(rt, SERVER, Cost::ONE, tills) {
        Ok(stamp) => Ok(stamp),
        Err(fault) => Err(fault.into()),
    }
}

/// Queues a stamped request, whose stamp the tills no longer hold.
fn submit<S: Setup, R: Wait>(
    rt: &R,
    queue: &TickLock<S>,
    pass: &mut WorkerPass<S>,
    tills: &mut StampTills<S>,
    stamp: Stamp,
    token: Token,
    at: Moment,
) -> Result<()>
    requires { Covers (stamp_holdings tills.old) stamp.params }
    ensures taken { OnOk result (stamp_holdings tills.new ≡ tills_after_submit stamp.params (stamp_holdings tills.old)) }
    ensures kept { OnErr result (stamp_holdings tills.new ≡ stamp_holdings tills.old) }
{
    match queue.submit(rt, pass, tills, stamp, token, at) {
        Ok(_) => Ok(()),
        Err(fault) => Err(fault.cause.into()),
    }
}
