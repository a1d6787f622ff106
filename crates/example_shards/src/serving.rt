//! A worker's thread: it serves what the queue of its shard grants.
ghost use Rattle.std.specs.Prelude.{◌≡◌, OnErr, OnOk};
ghost use Rattle.dmclock.specs.Bundles.{phase_holdings};
ghost use Rattle.dmclock.specs.Moves.{without_grant};

use crate::shared::{SERVER, Shared};
use anyhow::{Error, Result, bail};
use dmclock::locks::{PhaseTills, RunFault, RunOrRange, Setup, TickLock, Unit, WorkerPass};
use dmclock::shards::ArrivalLock;
use dmclock::{Pulled, ServerId};
use std::rt::Clock;
use std::sync::Wait;

/// What a worker's thread has of its own.
#[derive(Drop)]
pub struct Worker<S: Setup> {
    pub shard: ServerId,
    pub pass: WorkerPass<S>,
    pub fault: Option<Error>,
}

impl<S: Setup> Worker<S> {
    /// Serves until the shard is closed and nothing is queued there. If that fails, all threads end.
    pub fn run<R: Wait + Clock>(&mut self, rt: &R, shared: &Shared<S>) {
        self.fault = self.serve_all(rt, shared).err();
        if self.fault.is_some() {
            shared.give_up(rt);
        }
    }

    fn serve_all<R: Wait + Clock>(&mut self, rt: &R, shared: &Shared<S>) -> Result<()> {
        let Some(queue) = shared.server.shard(self.shard) else {
            bail!("there is no such shard");
        };
        for _ in rt.forever() {
            if !self.serve_next(rt, shared, queue)? {
                return Ok(());
            }
        }
        unreachable!()
    }

    /// Waits for a request, and serves it. False if there will be none. A pass from before the request's client was admitted
    /// is extended instead.
    fn serve_next<R: Wait + Clock>(
        &mut self,
        rt: &R,
        shared: &Shared<S>,
        queue: &TickLock<S>,
    ) -> Result<bool> {
        let at = shared.now(rt)?;
        match queue.pull_or_wait(rt, &mut self.pass, at) {
            Ok(Pulled::Returning { .. }) => self.serve(rt, shared)?,
            Ok(Pulled::Nothing) => return Ok(false),
            Ok(Pulled::Future(_)) => bail!("a request without a limit is due later"),
            Err(RunOrRange::Run(RunFault::Behind)) => {
                queue.extend(rt, shared.alloc, &mut self.pass)?;
            }
            Err(RunOrRange::Run(fault)) => return Err(fault.into()),
            Err(RunOrRange::Range) => bail!("a tag is out of range"),
        }
        Ok(true)
    }

    /// Here a device would do the work. Then the response leaves: phase and cost travel with it to the client, whose tracker counts it.
    fn serve<R: Wait>(&mut self, rt: &R, shared: &Shared<S>) -> Result<()> {
        let Some(unit) = self.pass.take_unit() else {
            bail!("the pass has no unit of the grant");
        };
        let client = shared.client(unit.client())?;
        let (phase, cost) = (unit.phase(), unit.cost());
        let Some(tills) = self.pass.grant_tills(unit.client(), phase) else {
            bail!("the pass has no tills of the client");
        };
        respond(rt, &client.arrivals, unit, tills)?;
        client.tracker.lock(rt).track_resp(SERVER, phase, cost)?;
        client.served.note(rt);
        Ok(())
    }
}

/// The response leaves the server: the client's book takes the grant and its cost from the pass, so that none leaves twice.
fn respond<S: Setup, R: Wait>(
    rt: &R,
    arrivals: &ArrivalLock<S>,
    unit: Unit,
    tills: &mut PhaseTills<S>,
) -> Result<()>
    ensures grant { OnOk result (phase_holdings tills.new ≡ without_grant unit.cost (phase_holdings tills.old)) }
    ensures kept { OnErr result (phase_holdings tills.new ≡ phase_holdings tills.old) }
{
    if !tills.holds(unit.cost()) {
        bail!("the pass does not hold the grant");
    }
    match arrivals.respond(rt, unit, tills) {
        Ok(()) => Ok(()),
        Err(fault) => Err(fault.cause.into()),
    }
}
