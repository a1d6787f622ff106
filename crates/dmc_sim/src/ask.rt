//! The events of a simulation, and what the cluster returns for them.
ghost use Rattle.std.specs.Prelude.{◌≡◌};
ghost use Rattle.dmc_pull.specs.Queue.{state_of};
ghost use Rattle.dmc_core.specs.Core.{RepresentsRun};
ghost use Rattle.dmc_sim.specs.Simulation.{Sim, asked, grant_in, is_counted, is_tagged};
ghost use Rattle.dmc_sim.specs.internal.Simulations.{Ends, IsAfter};
ghost use Rattle.dmc_sim.specs.internal.Turns.{fault_in};

use crate::report::SimFault;
use dmc_core::cluster_core::ClusterCore;
use dmc_core::event::{CoreEvent, CoreFault, CoreReply};
use dmc_tag::reply::Reply;
use dmc_tag::tag::Tag;
use dmc_types::config::PhaseType;
use dmc_types::cost::Cost;
use dmc_types::ids::ClientId;

/// A grant, which its client responds to: of a request of this cost, in a phase.
#[derive(Clone, Copy)]
pub struct Grant {
    pub client: ClientId,
    pub phase: PhaseType,
    pub cost: Cost,
}

/// What the cluster returns for an event. The refusal of a queue ends the simulation.
#[inline(always)]
pub fn ask<T: Tag>(
    core: &mut ClusterCore<T>,
    event: CoreEvent,
) -> Result<Result<CoreReply<T>, CoreFault>, SimFault>
    ensures { (sim : Sim T) → RepresentsRun state_of core.old sim.run → Ends (asked T.ops event sim) (IsAfter T.ops state_of event sim core.new) result }
{
    let returned = core.step(event);
    match fault_in(&returned) {
        Some(fault) => Err(fault),
        None => Ok(returned),
    }
}

/// How a returned value ends the simulation, if it does.
#[inline(always)]
fn fault_in<T: Tag>(returned: &Result<CoreReply<T>, CoreFault>) -> Option<SimFault>
    ensures { result ≡ fault_in returned.now }
{
    match returned {
        Ok(CoreReply::Served(Reply::Refused(refusal))) => Some(SimFault::Refused(*refusal)),
        Err(CoreFault::Memory) => Some(SimFault::Memory),
        _ => None,
    }
}

/// Whether a request was queued.
#[inline(always)]
pub fn is_tagged<T: Tag>(returned: &Result<CoreReply<T>, CoreFault>) -> bool
    ensures { result ≡ is_tagged returned.now }
{
    matches!(returned, Ok(CoreReply::Served(Reply::Tagged(_))))
}

/// Whether a completion was counted.
#[inline(always)]
pub fn is_counted<T: Tag>(returned: &Result<CoreReply<T>, CoreFault>) -> bool
    ensures { result ≡ is_counted returned.now }
{
    matches!(returned, Ok(CoreReply::Counted))
}

/// The grant of a request.
#[inline(always)]
pub fn grant_in<T: Tag>(returned: &Result<CoreReply<T>, CoreFault>) -> Option<Grant>
    ensures { result ≡ grant_in returned.now }
{
    match returned {
        Ok(
            CoreReply::Served(
                Reply::Granted {
                    client,
                    phase,
                    cost,
                    ..
                },
            ),
        ) => Some(Grant {
            client: *client,
            phase: *phase,
            cost: *cost,
        }),
        _ => None,
    }
}
