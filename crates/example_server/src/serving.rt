//! A worker's thread: it serves what the queue grants.
ghost use Rattle.std.specs.Prelude.{◌≡◌, OnErr, OnOk};
ghost use Rattle.dmclock.specs.Bundles.{phase_holdings};
ghost use Rattle.dmclock.specs.Moves.{without_grant};

use crate::shared::Shared;
use anyhow::{Error, Result, bail};
use dmclock::Pulled;
use dmclock::locks::{PhaseTills, RunFault, RunOrRange, Setup, TrackerLock, Unit, WorkerPass};
use std::rt::Clock;
use std::sync::Wait;

/// What a worker's thread has of its own.
#[derive(Drop)]
pub struct Worker<S: Setup> {
    pub pass: WorkerPass<S>,
    pub fault: Option<Error>,
}

impl<S: Setup> Worker<S> {
    /// Serves until the queue is closed and nothing is queued. If that fails, all threads end.
    pub fn run<R: Wait + Clock>(&mut self, rt: &R, shared: &Shared<S>) {
        self.fault = self.serve_all(rt, shared).err();
        if self.fault.is_some() {
            shared.give_up(rt);
        }
    }

    fn serve_all<R: Wait + Clock>(&mut self, rt: &R, shared: &Shared<S>) -> Result<()> {
        for _ in rt.forever() {
            if !self.serve_next(rt, shared)? {
                return Ok(());
            }
        }
        unreachable!()
    }

    /// Waits for a request, and serves it. False if there will be none. A pass from before the request's client was admitted
    /// is extended instead.
    fn serve_next<R: Wait + Clock>(&mut self, rt: &R, shared: &Shared<S>) -> Result<bool> {
        let at = shared.now(rt)?;
        match shared.queue.pull_or_wait(rt, &mut self.pass, at) {
            Ok(Pulled::Returning { .. }) => self.serve(rt, shared)?,
            Ok(Pulled::Nothing) => return Ok(false),
            Ok(Pulled::Future(_)) => bail!("a request without a limit is due later"),
            Err(RunOrRange::Run(RunFault::Behind)) => {
                shared.queue.extend(rt, shared.alloc, &mut self.pass)?;
            }
            Err(RunOrRange::Run(fault)) => return Err(fault.into()),
            Err(RunOrRange::Range) => bail!("a tag is out of range"),
        }
        Ok(true)
    }

    /// Here a device would do the work. Then the client has its response, which takes the unit of the grant.
    fn serve<R: Wait>(&mut self, rt: &R, shared: &Shared<S>) -> Result<()> {
        let Some(unit) = self.pass.take_unit() else {
            bail!("the pass has no unit of the grant");
        };
        let client = shared.client(unit.client())?;
        let Some(tills) = self.pass.grant_tills(unit.client(), unit.phase()) else {
            bail!("the pass has no tills of the client");
        };
        respond(rt, &client.tracker, unit, tills)?;
        client.served.note(rt);
        Ok(())
    }
}

/// Counts a completion at the client's tracker. It takes the grant and its cost from the pass, so that none is counted twice.
fn respond<S: Setup, R: Wait>(
    rt: &R,
    tracker: &TrackerLock<S>,
    unit: Unit,
    tills: &mut PhaseTills<S>,
) -> Result<()>
    ensures grant { OnOk result (phase_holdings tills.new ≡ without_grant unit.cost (phase_holdings tills.old)) }
    ensures kept { OnErr result (phase_holdings tills.new ≡ phase_holdings tills.old) }
{
    if !tills.holds(unit.cost()) {
        bail!("the pass does not hold the grant");
    }
    match tracker.respond(rt, unit, tills) {
        Ok(()) => Ok(()),
        Err(fault) => Err(fault.cause.into()),
    }
}
