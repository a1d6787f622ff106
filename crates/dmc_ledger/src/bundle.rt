//! Tills and books that belong together.
ghost use Rattle.std.specs.Prelude.{◌≡◌, ◌↔◌, IsTrue};
ghost use Rattle.dmc_ledger.specs.Bundles.{Covers, HoldsGrant, grant_holdings, phase_holdings, stamp_holdings};
ghost use Rattle.dmc_ledger.specs.Moves.{AreSamePhase, tills_after_response, tills_in, with_grant, without_grant};

use crate::book::Book;
use crate::setup::Setup;
use crate::till::{Till, shift_till};
use dmc_types::config::PhaseType;
use dmc_types::cost::Cost;
use dmc_types::params::ReqParams;

/// Stamps that a client made for a server, with the deltas and the rhos that they carry.
#[derive(Drop)]
pub struct StampTills<S: Setup> {
    pub stamps: Till<S>,
    pub delta: Till<S>,
    pub rho: Till<S>,
}

impl<S: Setup> StampTills<S> {
    /// Whether the tills hold at least one stamp, at least this delta and at least this rho. They may also hold the units of
    /// earlier stamps, which were made and not accepted.
    pub fn covers(&self, params: &ReqParams) -> bool
        ensures { IsTrue result ↔ Covers (stamp_holdings self.now) params.now }
    {
        self.stamps.amount() >= 1
            && self.delta.amount() >= u64::from(params.delta())
            && self.rho.amount() >= u64::from(params.rho())
    }
}

/// Grants of a client at a server in one phase: how many, and what they cost.
#[derive(Drop)]
pub struct PhaseTills<S: Setup> {
    pub grants: Till<S>,
    pub cost: Till<S>,
}

impl<S: Setup> PhaseTills<S> {
    /// Whether the tills hold at least one grant, and at least this cost. They may hold several grants.
    pub fn holds(&self, cost: Cost) -> bool
        ensures { IsTrue result ↔ HoldsGrant (phase_holdings self.now) cost }
    {
        self.grants.amount() >= 1 && self.cost.amount() >= u64::from(cost.units())
    }
}

/// Grants of a client at a server, by phase.
#[derive(Drop)]
pub struct GrantTills<S: Setup> {
    pub reservation: PhaseTills<S>,
    pub priority: PhaseTills<S>,
}

impl<S: Setup> GrantTills<S> {
    /// Whether the tills are of the same books as those of the phase here.
    pub fn are_of_phase(&self, phase: PhaseType, tills: &PhaseTills<S>) -> bool
        ensures { IsTrue result ↔ AreSamePhase (phase_holdings tills.now) (tills_in phase (grant_holdings self.now)) }
    {
        are_same(tills, self.of_phase(phase))
    }

    /// The tills of a phase.
    fn of_phase(&self, phase: PhaseType) -> &PhaseTills<S>
        ensures { phase_holdings result.now ≡ tills_in phase (grant_holdings self.now) }
    {
        match phase {
            PhaseType::Reservation => &self.reservation,
            PhaseType::Priority => &self.priority,
        }
    }

    /// Takes one grant of the phase with its cost out of tills of the same books.
    pub fn take(&mut self, phase: PhaseType, cost: Cost, tills: &mut PhaseTills<S>)
        requires same_books { AreSamePhase (phase_holdings tills.old) (tills_in phase (grant_holdings self.old)) }
        requires holds { HoldsGrant (phase_holdings tills.old) cost }
        ensures taken { grant_holdings self.new ≡ tills_after_response phase cost (grant_holdings self.old) }
        ensures tills { phase_holdings tills.new ≡ without_grant cost (phase_holdings tills.old) }
    {
        match phase {
            PhaseType::Reservation => shift_grant(tills, &mut self.reservation, cost),
            PhaseType::Priority => shift_grant(tills, &mut self.priority, cost),
        }
    }
}

/// Whether two bundles of tills are of the same books.
fn are_same<S: Setup>(tills: &PhaseTills<S>, other: &PhaseTills<S>) -> bool
    ensures { IsTrue result ↔ AreSamePhase (phase_holdings tills.now) (phase_holdings other.now) }
{
    tills.grants.number() == other.grants.number() && tills.cost.number() == other.cost.number()
}

/// Moves a grant with its cost from tills to others of the same books.
fn shift_grant<S: Setup>(from: &mut PhaseTills<S>, to: &mut PhaseTills<S>, cost: Cost)
    requires same_books { AreSamePhase (phase_holdings from.old) (phase_holdings to.old) }
    requires holds { HoldsGrant (phase_holdings from.old) cost }
    ensures from { phase_holdings from.new ≡ without_grant cost (phase_holdings from.old) }
    ensures to { phase_holdings to.new ≡ with_grant cost (phase_holdings to.old) }
{
    shift_till(&mut from.grants, &mut to.grants, 1);
    shift_till(&mut from.cost, &mut to.cost, u64::from(cost.units()));
}

/// The books of a client's stamps for a server.
#[derive(Drop)]
pub struct StampBooks<S: Setup> {
    pub stamps: Book<S>,
    pub delta: Book<S>,
    pub rho: Book<S>,
}

/// The books of a client's grants at a server in one phase: of how many there are, and of what they cost.
#[derive(Drop)]
pub struct PhaseBooks<S: Setup> {
    pub grants: Book<S>,
    pub cost: Book<S>,
}

/// The books of a client's grants at a server, by phase.
#[derive(Drop)]
pub struct GrantBooks<S: Setup> {
    pub reservation: PhaseBooks<S>,
    pub priority: PhaseBooks<S>,
}
