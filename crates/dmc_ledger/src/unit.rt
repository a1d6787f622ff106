//! What a grant brings to its client's tracker.
ghost use Rattle.std.specs.Prelude.{◌≡◌};
ghost use Rattle.dmc_ledger.specs.Bundles.{HoldsGrant, phase_holdings};

use crate::bundle::PhaseTills;
use crate::setup::Setup;
use dmc_types::config::PhaseType;
use dmc_types::cost::Cost;
use dmc_types::ids::{ClientId, ServerId};
use std::marker::Model;

/// One grant of a client's request at a server: it goes with one response, and can't be copied. It knows the phase and the cost, so
/// that nobody responds with others.
#[derive(Drop)]
pub struct Unit {
    client: ClientId,
    server: ServerId,
    phase: PhaseType,
    cost: Cost,
}

impl Model for Unit {
    ghost use Rattle.dmc_ledger.specs.Bundles.{UnitValue};

    ghost Value = { UnitValue };

    ghost view = { λ u. record { client = u.client.0; server = u.server.0; phase = u.phase; cost = u.cost } };
}

impl Unit {
    /// Whose request was granted.
    pub fn client(&self) -> ClientId
        ensures { result.0 ≡ self.now.client }
    {
        self.client
    }

    /// Which server granted it.
    pub fn server(&self) -> ServerId
        ensures { result.0 ≡ self.now.server }
    {
        self.server
    }

    /// The phase in which it was granted.
    pub fn phase(&self) -> PhaseType
        ensures { result ≡ self.now.phase }
    {
        self.phase
    }

    /// What the request costs.
    pub fn cost(&self) -> Cost
        ensures { result ≡ self.now.cost }
    {
        self.cost
    }
}

/// The unit of a grant that the tills hold. A queue's book calls it once for each grant that it puts into the tills.
///
/// It is no method of `Unit`, so a crate that has only the type makes no unit.
pub fn make_unit<S: Setup>(
    client: ClientId,
    server: ServerId,
    phase: PhaseType,
    cost: Cost,
    _tills: &PhaseTills<S>,
) -> Unit
    requires { HoldsGrant (phase_holdings _tills.now) cost }
    ensures { result ≡ record { client = client.0; server = server.0; phase = phase; cost = cost } }
{
    Unit {
        client,
        server,
        phase,
        cost,
    }
}
