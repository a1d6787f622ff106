//! The clients' desks.
ghost use Rattle.std.specs.Prelude.{◌≡◌, ◌==◌, ◌≤◌, ◌<◌, ◌^◌, ◌↔◌, length, map, true, None, Some, IfSome, IsSome, IsTrue, option_map, slice_index_or};
ghost use Rattle.std.specs.List.{AllByRecursion};
ghost use Rattle.dmc_ledger.specs.Accounts.{total_of};
ghost use Rattle.dmc_ledger.specs.Bundles.{Covers, HoldsGrant, client_side, grant_accounts, grant_holdings, phase_accounts, phase_holdings, stamp_holdings};
ghost use Rattle.dmc_ledger.specs.Moves.{ArePhaseOf, books_in, tills_in, tills_after_response, tills_after_stamp, tills_after_submit, with_grant};
ghost use Rattle.dmc_ledger.specs.internal.Moves.{books_after_grant, phase_after_grant};
ghost use Rattle.dmc_pull.specs.Allowed.{is_allowed};
ghost use Rattle.dmc_book.specs.Calls.{AreAlike, IsForDesk};
ghost use Rattle.dmc_book.specs.Consistent.{AreClientsApart};
ghost use Rattle.dmc_book.specs.internal.Consistent.{AreGrantsWithin, IsPhaseWithin, max_before};
ghost use Rattle.dmc_book.specs.Counts as counts;
ghost use Rattle.dmc_book.specs.Moves.{are_phase_of, desk_after, takes, takes_at, desk_place, units_after, unit_of};
ghost use Rattle.dmc_book.specs.BookState.{no_desk, pass_state};

use crate::accounts::Accounts;
use crate::counts::{Grant, grant_in};
use crate::names::{place_recent, place_with_hint};
use crate::pass::WorkerPass;
use crate::seat::credit;
use dmc_ledger::bundle::{GrantBooks, GrantTills, PhaseBooks, PhaseTills, StampTills};
use dmc_ledger::desk::ClientDesk;
use dmc_ledger::setup::Setup;
use dmc_ledger::stamp::Stamp;
use dmc_ledger::till::shift_till;
use dmc_ledger::unit::{Unit, make_unit};
use dmc_pull::granting::GrantTest;
use dmc_tag::event::Event;
use dmc_tag::tag::Tag;
use dmc_types::config::PhaseType;
use dmc_types::cost::Cost;
use dmc_types::ids::{ClientId, ServerId};
use dmc_types::params::ReqParams;
use indexmap::IndexSet;
use std::cell::Cell;

/// Whether a pass has tills for a grant: the client has a desk, the pass names the client at the same place, and the tills of
/// the phase there are of the desk's books.
#[derive(Drop)]
pub(crate) struct UnitTest<'a, T: Tag, S: Setup> {
    pub(crate) accounts: &'a Accounts<T, S>,
    pub(crate) pass: &'a WorkerPass<S>,
}

impl<'a, T: Tag, S: Setup> GrantTest for UnitTest<'a, T, S> {
    ghost allows = { λ t client phase. takes t.accounts.now.desks (pass_state t.pass.now).clients (pass_state t.pass.now).units client phase };

    fn allows(&self, client: ClientId, phase: PhaseType, hint: usize) -> bool {
        let accounts = self.accounts;
        let pass = self.pass;
        let Some(place) = accounts.desk_with_hint(hint, client) else {
            return false;
        };
        pass.recent.set(place);
        let Some(named) = place_with_hint(&pass.clients, place, client) else {
            return false;
        };
        place == named && takes_unit(&accounts.desks, &pass.units, place, phase)
    }
}

/// Whether the tills of the phase at a place are of the books of the desk there.
fn takes_unit<S: Setup>(
    desks: &[ClientDesk<S>],
    units: &[GrantTills<S>],
    place: usize,
    phase: PhaseType,
) -> bool
    ensures { result ≡ takes_at phase (map client_side desks.now) (map grant_holdings units.now) (Some place) }
{
    let (Some(desk), Some(unit)) = (desks.get(place), units.get(place)) else {
        return false;
    };
    are_of_phase(tills_of(unit, phase), books_of(&desk.books, phase))
}

/// The tills of a phase.
fn tills_of<S: Setup>(unit: &GrantTills<S>, phase: PhaseType) -> &PhaseTills<S>
    ensures { phase_holdings result.now ≡ tills_in phase (grant_holdings unit.now) }
{
    match phase {
        PhaseType::Reservation => &unit.reservation,
        PhaseType::Priority => &unit.priority,
    }
}

/// The books of a phase.
fn books_of<S: Setup>(books: &GrantBooks<S>, phase: PhaseType) -> &PhaseBooks<S>
    ensures { phase_accounts result.now ≡ books_in phase (grant_accounts books.now) }
{
    match phase {
        PhaseType::Reservation => &books.reservation,
        PhaseType::Priority => &books.priority,
    }
}

/// Whether the tills are of these books.
pub(crate) fn are_of_phase<S: Setup>(tills: &PhaseTills<S>, books: &PhaseBooks<S>) -> bool
    ensures { result ≡ are_phase_of (phase_holdings tills.now) (phase_accounts books.now) }
{
    tills.grants.number() == books.grants.number() && tills.cost.number() == books.cost.number()
}

/// Issues a grant of a cost into the books of a phase, and into their tills.
#[inline(always)]
fn issue_grant<S: Setup>(books: &mut PhaseBooks<S>, tills: &mut PhaseTills<S>, cost: Cost)
    requires its { ArePhaseOf (phase_holdings tills.old) (phase_accounts books.old) }
    requires fits { IsPhaseWithin max_before (phase_accounts books.old) }
    ensures books { phase_accounts books.new ≡ phase_after_grant cost (phase_accounts books.old) }
    ensures tills { phase_holdings tills.new ≡ with_grant cost (phase_holdings tills.old) }
{
    credit(&mut books.grants, &mut tills.grants, 1);
    credit(&mut books.cost, &mut tills.cost, cost.units());
}

/// Issues a grant of a phase.
#[inline(always)]
fn issue_unit<S: Setup>(
    books: &mut GrantBooks<S>,
    unit: &mut GrantTills<S>,
    phase: PhaseType,
    cost: Cost,
)
    requires its { ArePhaseOf (tills_in phase (grant_holdings unit.old)) (books_in phase (grant_accounts books.old)) }
    requires fits { IsPhaseWithin max_before (books_in phase (grant_accounts books.old)) }
    ensures books { grant_accounts books.new ≡ books_after_grant phase cost (grant_accounts books.old) }
    ensures unit { grant_holdings unit.new ≡ tills_after_response phase cost (grant_holdings unit.old) }
    ensures holds { HoldsGrant (tills_in phase (grant_holdings unit.new)) cost }
{
    match phase {
        PhaseType::Reservation => issue_grant(&mut books.reservation, &mut unit.reservation, cost),
        PhaseType::Priority => issue_grant(&mut books.priority, &mut unit.priority, cost),
    }
}

/// Issues a grant at the desk of its client, and into the tills if the pass names the client, who is looked for at the hint first:
/// the unit of the grant, which is of this server.
#[inline(always)]
pub(crate) fn hand_out<T: Copy, S: Setup>(
    server: ServerId,
    names: &IndexSet<ClientId>,
    hint: usize,
    desks: &mut Vec<ClientDesk<S>>,
    units: &mut Vec<GrantTills<S>>,
    event: &Event<T>,
) -> Option<Unit>
    requires no_stamp { counts.accepted event.now ≡ None }
    requires its { is_allowed (takes (map client_side desks.old.items) names.now.keys (map grant_holdings units.old.items)) event.now.reply ≡ true }
    requires fits { AllByRecursion (λ d. AreGrantsWithin max_before d.books) (map client_side desks.old.items) }
    requires apart { AreClientsApart (map client_side desks.old.items) }
    ensures desks { map client_side desks.new.items ≡ map (desk_after event.now) (map client_side desks.old.items) }
    ensures names { map (λ d. d.client) desks.new.items ≡ map (λ d. d.client) desks.old.items }
    ensures units { map grant_holdings units.new.items ≡ units_after names.now.keys (counts.grant_in event.now.reply) (map grant_holdings units.old.items) }
    ensures unit { result ≡ option_map (unit_of server.0) (counts.grant_in event.now.reply) }
{
    let Grant {
        client,
        phase,
        cost,
    } = grant_in(&event.reply)?;
    let Some(place) = place_with_hint(names, hint, client) else {
        unreachable!()
    };
    let unit = &mut units[place];
    issue_unit(&mut desks[place].books, unit, phase, cost);
    Some(make_unit(client, server, phase, cost, tills_of(unit, phase)))
}

/// Whether both are of the same books.
fn are_alike<S: Setup>(tills: &StampTills<S>, held: &StampTills<S>) -> bool
    ensures { IsTrue result ↔ AreAlike (stamp_holdings tills.now) (stamp_holdings held.now) }
{
    tills.stamps.number() == held.stamps.number()
        && tills.delta.number() == held.delta.number()
        && tills.rho.number() == held.rho.number()
}

/// The place of the desk of a stamp's client, if the stamp is for this server and the tills are of the books of that
/// desk's stamps. It is looked for if one was found last.
#[inline(always)]
pub(crate) fn find_stamps<S: Setup>(
    clients: &IndexSet<ClientId>,
    desks: &[ClientDesk<S>],
    server: ServerId,
    tills: &StampTills<S>,
    stamp: &Stamp,
    recent: &Cell<usize>,
) -> Option<usize>
    requires named { clients.now.keys ≡ map (λ d. d.client) desks.now }
    ensures some { IsSome result ↔ IsForDesk server.0 (map client_side desks.now) stamp.now (stamp_holdings tills.now) }
    ensures here { IfSome result (λ place. desk_place stamp.now.client (map client_side desks.now) ≡ Some place) }
    ensures within { IfSome result (λ place. place < length desks.now) }
    ensures its { IfSome result (λ place. AreAlike (stamp_holdings tills.now) (slice_index_or (map client_side desks.now) place no_desk).held) }
{
    if stamp.server() != server {
        return None;
    }
    let Some(place) = place_recent(clients, recent, stamp.client()) else {
        return None;
    };
    if !are_alike(tills, &desks[place].held) {
        return None;
    }
    Some(place)
}

/// Moves a stamp, its delta and its rho into the held tills of a desk.
#[inline(always)]
pub(crate) fn take_stamp<S: Setup>(
    held: &mut StampTills<S>,
    tills: &mut StampTills<S>,
    params: ReqParams,
)
    requires its { AreAlike (stamp_holdings tills.old) (stamp_holdings held.old) }
    requires covers { Covers (stamp_holdings tills.old) params }
    ensures held { stamp_holdings held.new ≡ tills_after_stamp params (stamp_holdings held.old) }
    ensures tills { stamp_holdings tills.new ≡ tills_after_submit params (stamp_holdings tills.old) }
{
    let delta = u64::from(params.delta());
    let rho = u64::from(params.rho());
    shift_till(&mut tills.stamps, &mut held.stamps, 1);
    shift_till(&mut tills.delta, &mut held.delta, delta);
    shift_till(&mut tills.rho, &mut held.rho, rho);
}
