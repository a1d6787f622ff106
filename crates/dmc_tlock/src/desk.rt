//! Work on one server's desk.
ghost use Rattle.std.specs.Prelude.{◌≡◌, ◌+◌, ◌-◌, ◌<◌, ◌≤◌, ◌^◌, ◌↔◌, length, map, IsTrue, IfOk, IsErrOf};
ghost use Rattle.dmc_ledger.specs.Accounts.{total_of};
ghost use Rattle.dmc_ledger.specs.Bundles.{HoldsGrant, phase_holdings, stamp_holdings, stamp_accounts, server_side};
ghost use Rattle.dmc_ledger.specs.Moves.{AreOf, AreSamePhase, AreWithin, tills_after_stamp, tills_in, without_grant};
ghost use Rattle.dmc_tlock.specs.BookState.{desk_at};
ghost use Rattle.dmc_tlock.specs.Entries.{IsUnitAt, side_after_stamp, side_after_response};

use crate::fault::TillFault;
use dmc_ledger::bundle::{PhaseTills, StampBooks, StampTills};
use dmc_ledger::desk::ServerDesk;
use dmc_ledger::setup::Setup;
use dmc_ledger::unit::Unit;
use dmc_types::config::PhaseType;
use dmc_types::cost::Cost;
use dmc_types::ids::{ClientId, ServerId};
use dmc_types::params::ReqParams;

/// Whether the tills are of these books.
pub(crate) fn are_of<S: Setup>(tills: &StampTills<S>, books: &StampBooks<S>) -> bool
    ensures { IsTrue result ↔ AreOf (stamp_holdings tills.now) (stamp_accounts books.now) }
{
    tills.stamps.number() == books.stamps.number()
        && tills.delta.number() == books.delta.number()
        && tills.rho.number() == books.rho.number()
}

/// The place of the server's desk, if the tills are of its stamp books.
pub(crate) fn find_desk<S: Setup>(
    desks: &[ServerDesk<S>],
    server: ServerId,
    tills: &StampTills<S>,
) -> Result<usize, TillFault>
    ensures place { IfOk result (λ i. i ≡ server.0) }
    ensures within { IfOk result (λ i. server.0 < length desks.now) }
    ensures its { IfOk result (λ i. AreOf (stamp_holdings tills.now) (desk_at (map server_side desks.now) server).books) }
    ensures no_server { IsErrOf result TillFault.NoServer ↔ (length desks.now ≤ server.0) }
    ensures stranger { IsErrOf result TillFault.Stranger
        ↔ ((server.0 < length desks.now) × (AreOf (stamp_holdings tills.now) (desk_at (map server_side desks.now) server).books → ⊥)) }
{
    let index = server.0 as usize;
    let Some(desk) = desks.get(index) else {
        return Err(TillFault::NoServer);
    };
    if !are_of(tills, &desk.books) {
        return Err(TillFault::Stranger);
    }
    Ok(index)
}

/// The place of the desk of a unit's server, if the unit is of this client, and the tills are of the client's grants there in the
/// unit's phase.
pub(crate) fn find_grants<S: Setup>(
    desks: &[ServerDesk<S>],
    client: ClientId,
    unit: &Unit,
    tills: &PhaseTills<S>,
) -> Result<usize, TillFault>
    ensures place { IfOk result (λ i. i ≡ unit.now.server) }
    ensures within { IfOk result (λ i. unit.now.server < length desks.now) }
    ensures its { IfOk result (λ i. IsUnitAt client.0 (map server_side desks.now) unit.now (phase_holdings tills.now)) }
    ensures no_server { IsErrOf result TillFault.NoServer ↔ (length desks.now ≤ unit.now.server) }
    ensures stranger { IsErrOf result TillFault.Stranger
        ↔ ((unit.now.server < length desks.now) × (IsUnitAt client.0 (map server_side desks.now) unit.now (phase_holdings tills.now) → ⊥)) }
{
    let index = unit.server().0 as usize;
    let Some(desk) = desks.get(index) else {
        return Err(TillFault::NoServer);
    };
    if unit.client() != client || !desk.held.are_of_phase(unit.phase(), tills) {
        return Err(TillFault::Stranger);
    }
    Ok(index)
}

/// Counts a stamp in the books of a desk, and puts it into the tills.
pub(crate) fn issue_stamp<S: Setup>(
    desk: &mut ServerDesk<S>,
    tills: &mut StampTills<S>,
    params: ReqParams,
)
    requires its { AreOf (stamp_holdings tills.old) (server_side desk.old).books }
    requires stamps { total_of (server_side desk.old).books.stamps + 1 ≤ 2 ^ 63 }
    requires delta { total_of (server_side desk.old).books.delta + params.delta ≤ 2 ^ 63 }
    requires rho { total_of (server_side desk.old).books.rho + params.rho ≤ 2 ^ 63 }
    ensures desk { server_side desk.new ≡ side_after_stamp params (server_side desk.old) }
    ensures tills { stamp_holdings tills.new ≡ tills_after_stamp params (stamp_holdings tills.old) }
{
    let delta = u64::from(params.delta());
    let rho = u64::from(params.rho());
    let Ok(()) = desk.books.stamps.issue(&mut tills.stamps, 1) else {
        unreachable!()
    };
    let Ok(()) = desk.books.delta.issue(&mut tills.delta, delta) else {
        unreachable!()
    };
    let Ok(()) = desk.books.rho.issue(&mut tills.rho, rho) else {
        unreachable!()
    };
}

/// Moves a grant of a phase with its cost from tills into the held tills of a desk.
pub(crate) fn take_unit<S: Setup>(
    desk: &mut ServerDesk<S>,
    phase: PhaseType,
    cost: Cost,
    tills: &mut PhaseTills<S>,
)
    requires its { AreSamePhase (phase_holdings tills.old) (tills_in phase (server_side desk.old).held) }
    requires holds { HoldsGrant (phase_holdings tills.old) cost }
    ensures desk { server_side desk.new ≡ side_after_response phase cost (server_side desk.old) }
    ensures tills { phase_holdings tills.new ≡ without_grant cost (phase_holdings tills.old) }
{
    desk.held.take(phase, cost, tills);
}

/// Changes nothing, and shows that the tills hold no more than their books do.
pub(crate) fn audit_tills<S: Setup>(desk: &ServerDesk<S>, tills: &StampTills<S>)
    requires { AreOf (stamp_holdings tills.now) (server_side desk.now).books }
    ensures { AreWithin (stamp_holdings tills.now) (server_side desk.now).books }
{
    desk.books.stamps.audit(&tills.stamps);
    desk.books.delta.audit(&tills.delta);
    desk.books.rho.audit(&tills.rho);
}
