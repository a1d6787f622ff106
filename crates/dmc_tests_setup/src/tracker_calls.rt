//! The calls of a tracker's book and of its lock.
ghost use Rattle.std.specs.Prelude.{◌≡◌, IfSome};
ghost use Rattle.dmc_ledger.specs.Bundles.{HoldsGrant, phase_holdings};

use crate::calls::carried;
use crate::opening::ONE;
use dmc_ledger::bundle::{PhaseTills, StampTills};
use dmc_ledger::setup::Setup;
use dmc_ledger::unit::{Unit, make_unit};
use dmc_tlock::book::TrackerBook;
use dmc_tlock::fault::{EntryFault, RespondFault, TillFault};
use dmc_tlock::lock::TrackerLock;
use dmc_tlock::segment::TrackerSegment;
use dmc_tlock::status::TrackStatus;
use dmc_types::config::PhaseType;
use dmc_types::cost::Cost;
use dmc_types::ids::{ClientId, ServerId};
use std::sync::Wait;

/// The calls of a tracker's book, in hand or through its lock. They promise nothing: their results are tested by running them.
pub trait TrackerCalls<S: Setup> {
    /// The counts of a stamp of this cost: delta and rho.
    fn try_stamp_of_cost(
        &mut self,
        server: ServerId,
        cost: Cost,
        tills: &mut StampTills<S>,
    ) -> Result<(u32, u32), EntryFault>;

    /// The counts of a stamp of cost 1.
    fn try_stamp(
        &mut self,
        server: ServerId,
        tills: &mut StampTills<S>,
    ) -> Result<(u32, u32), EntryFault> {
        self.try_stamp_of_cost(server, Cost::ONE, tills)
    }

    fn try_skip(&mut self, server: ServerId) -> Result<(), EntryFault>;

    fn try_status(
        &mut self,
        server: ServerId,
        tills: &StampTills<S>,
    ) -> Result<TrackStatus, TillFault>;

    /// Responds to a grant of client 1 in phase Priority, of this cost, if the tills hold one.
    fn try_respond_of_cost(
        &mut self,
        server: ServerId,
        cost: Cost,
        tills: &mut PhaseTills<S>,
    ) -> Result<(), EntryFault>;

    /// The same for cost 1.
    fn try_respond(
        &mut self,
        server: ServerId,
        tills: &mut PhaseTills<S>,
    ) -> Result<(), EntryFault> {
        self.try_respond_of_cost(server, Cost::ONE, tills)
    }

    fn try_rotate(&mut self) -> Option<TrackerSegment<S>>;
}

/// The unit of a grant, if the tills hold one of this cost.
pub fn unit_of<S: Setup>(
    client: ClientId,
    server: ServerId,
    phase: PhaseType,
    cost: Cost,
    tills: &PhaseTills<S>,
) -> Option<Unit>
    ensures { IfSome result (λ unit. HoldsGrant (phase_holdings tills.now) unit.cost) }
{
    if !tills.holds(cost) {
        return None;
    }
    Some(make_unit(client, server, phase, cost, tills))
}

/// Why a response was refused, without its unit.
pub fn without_unit(answer: Result<(), RespondFault>) -> Result<(), EntryFault> {
    match answer {
        Ok(()) => Ok(()),
        Err(fault) => Err(fault.cause),
    }
}

impl<S: Setup> TrackerCalls<S> for TrackerBook<S> {
    fn try_stamp_of_cost(
        &mut self,
        server: ServerId,
        cost: Cost,
        tills: &mut StampTills<S>,
    ) -> Result<(u32, u32), EntryFault> {
        let stamp = self.stamp(server, cost, tills)?;
        Ok(carried(&stamp))
    }

    fn try_skip(&mut self, server: ServerId) -> Result<(), EntryFault> {
        self.skip(server)
    }

    fn try_status(
        &mut self,
        server: ServerId,
        tills: &StampTills<S>,
    ) -> Result<TrackStatus, TillFault> {
        self.status(server, tills)
    }

    fn try_respond_of_cost(
        &mut self,
        server: ServerId,
        cost: Cost,
        tills: &mut PhaseTills<S>,
    ) -> Result<(), EntryFault> {
        match unit_of(ONE, server, PhaseType::Priority, cost, tills) {
            Some(unit) => without_unit(self.respond(unit, tills)),
            None => Ok(()),
        }
    }

    fn try_rotate(&mut self) -> Option<TrackerSegment<S>> {
        self.rotate()
    }
}

/// A tracker's book behind its lock.
#[derive(Drop)]
pub struct AtLock<'a, S: Setup, R: Wait> {
    pub rt: &'a R,
    pub lock: &'a TrackerLock<S>,
}

impl<S: Setup, R: Wait> TrackerCalls<S> for AtLock<'_, S, R> {
    fn try_stamp_of_cost(
        &mut self,
        server: ServerId,
        cost: Cost,
        tills: &mut StampTills<S>,
    ) -> Result<(u32, u32), EntryFault> {
        let stamp = self.lock.stamp(self.rt, server, cost, tills)?;
        Ok(carried(&stamp))
    }

    fn try_skip(&mut self, server: ServerId) -> Result<(), EntryFault> {
        self.lock.skip(self.rt, server)
    }

    fn try_status(
        &mut self,
        server: ServerId,
        tills: &StampTills<S>,
    ) -> Result<TrackStatus, TillFault> {
        self.lock.status(self.rt, server, tills)
    }

    fn try_respond_of_cost(
        &mut self,
        server: ServerId,
        cost: Cost,
        tills: &mut PhaseTills<S>,
    ) -> Result<(), EntryFault> {
        match unit_of(ONE, server, PhaseType::Priority, cost, tills) {
            Some(unit) => without_unit(self.lock.respond(self.rt, unit, tills)),
            None => Ok(()),
        }
    }

    fn try_rotate(&mut self) -> Option<TrackerSegment<S>> {
        self.lock.rotate(self.rt)
    }
}
