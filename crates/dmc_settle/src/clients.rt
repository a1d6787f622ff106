//! Settling the clients' tracker books.
ghost use Rattle.std.specs.Prelude.{◌≡◌, ◌≤◌, ◌<◌, ◌^◌, ℕ, [], length, map, slice_index_or, sum_by};
ghost use Rattle.dmc_types.specs.Limits.{max_servers};
ghost use Rattle.dmc_ledger.specs.Bundles.{client_side, phase_accounts, phase_holdings, server_side};
ghost use Rattle.dmc_tlock.specs.BookState.{no_side};
ghost use Rattle.dmc_tlock.specs.Consistent.{IsConsistent};
ghost use Rattle.dmc_settle.specs.internal.Filled.{AreBalanced, AreClientNumbers, AreLeftWithin, IsAudited, IsAuditedPhase, IsClosing, IsHeldWithin, IsLastPhase, IsReadyClient, all_held, client_numbers, no_client_numbers, responses_held, stamps_taken, with_held, with_pair};
ghost use Rattle.dmc_settle.specs.internal.Places as places;
ghost use Rattle.dmc_settle.specs.internal.Places.{desk_of, no_held, no_tracker};

use crate::report::{ClientReport, StampsLeft};
use dmc_ledger::bundle::{PhaseBooks, PhaseTills};
use dmc_ledger::desk::{ClientDesk, ServerDesk};
use dmc_ledger::setup::Setup;
use dmc_tlock::book::TrackerBook;
use dmc_tlock::pass::ClientPass;
use dmc_tlock::settled::StampsHeld;

/// What the desks of a client took in: stamps at the servers' queues, and responses at its tracker.
#[derive(Clone, Copy)]
pub(crate) struct TakenIn {
    sent: u64,
    completed: u64,
}

/// Changes nothing, and shows that each held till of a pair is all that its book issued beside what was gathered.
fn audit_pair<S: Setup>(desk: &ClientDesk<S>, side: &ServerDesk<S>)
    requires { IsClosing (client_side desk.now) (server_side side.now) }
    ensures { IsAudited (client_side desk.now) (server_side side.now) }
{
    side.books.stamps.audit(&desk.held.stamps);
    side.books.delta.audit(&desk.held.delta);
    side.books.rho.audit(&desk.held.rho);
    audit_phase(&desk.books.reservation, &side.held.reservation);
    audit_phase(&desk.books.priority, &side.held.priority);
}

/// The same of the books of a phase.
fn audit_phase<S: Setup>(books: &PhaseBooks<S>, held: &PhaseTills<S>)
    requires { IsLastPhase (phase_accounts books.now) (phase_holdings held.now) }
    ensures { IsAuditedPhase (phase_accounts books.now) (phase_holdings held.now) }
{
    books.grants.audit(&held.grants);
    books.cost.audit(&held.cost);
}

/// Audits a pair, and adds what its held tills hold.
fn add_pair<S: Setup>(taken: TakenIn, desk: &ClientDesk<S>, side: &ServerDesk<S>) -> TakenIn
    requires closing { IsClosing (client_side desk.now) (server_side side.now) }
    requires sent { taken.sent ≤ 2 ^ 40 }
    requires completed { taken.completed ≤ 2 ^ 40 }
    ensures value { result ≡ with_pair taken (client_side desk.now) (server_side side.now) }
    ensures audited { IsAudited (client_side desk.now) (server_side side.now) }
{
    audit_pair(desk, side);
    let reservation = side.held.reservation.grants.amount();
    let priority = side.held.priority.grants.amount();
    TakenIn {
        sent: taken.sent + desk.held.stamps.amount(),
        completed: taken.completed + reservation + priority,
    }
}

/// Audits the pairs of a client, and sums what their held tills hold.
fn audit_pairs<S: Setup>(
    client: usize,
    desks: &[Vec<ClientDesk<S>>],
    sides: &[ServerDesk<S>],
) -> TakenIn
    requires few { length desks.now ≤ max_servers }
    requires as_many { length sides.now ≡ length desks.now }
    requires within { (s : ℕ) → s < length desks.now → client < length (slice_index_or (map places.sides desks.now) s []) }
    requires closing { (s : ℕ) → s < length desks.now
        → IsClosing (desk_of (map places.sides desks.now) s client) (slice_index_or (map server_side sides.now) s no_side) }
    ensures audited { (s : ℕ) → s < length desks.now
        → IsAudited (desk_of (map places.sides desks.now) s client) (slice_index_or (map server_side sides.now) s no_side) }
    ensures sent { result.sent ≡ stamps_taken (map places.sides desks.now) client }
    ensures completed { result.completed ≡ sum_by responses_held (map server_side sides.now) }
{
    let mut taken = TakenIn {
        sent: 0,
        completed: 0,
    };
    for s in 0..desks.len() {
        taken = add_pair(taken, &desks[s][client], &sides[s]);
    }
    taken
}

/// Adds what was left for a server.
fn add_held(sum: StampsLeft, left: StampsHeld) -> StampsLeft
    requires left { IsHeldWithin left }
    requires fits { AreLeftWithin sum }
    ensures { result ≡ with_held sum left }
{
    StampsLeft {
        stamps: sum.stamps + left.stamps,
        delta: sum.delta + u128::from(left.delta),
        rho: sum.rho + u128::from(left.rho),
    }
}

/// Sums what was left in a pass for each server.
fn sum_held(held: &[StampsHeld]) -> StampsLeft
    requires few { length held.now ≤ max_servers }
    requires each { (s : ℕ) → s < length held.now → IsHeldWithin (slice_index_or held.now s no_held) }
    ensures { result ≡ all_held held.now }
{
    let mut sum = StampsLeft::default();
    for left in held {
        sum = add_held(sum, *left);
    }
    sum
}

/// Settles a client's tracker book with its pass, audits its pair at each server, and fills in its row.
fn settle_client<S: Setup>(
    client: usize,
    tracker: TrackerBook<S>,
    pass: ClientPass<S>,
    desks: &[Vec<ClientDesk<S>>],
    row: &mut ClientReport,
)
    requires ready { IsReadyClient (map places.sides desks.now) client tracker pass }
    requires few { length desks.now ≤ max_servers }
    ensures numbers { AreClientNumbers (map places.sides desks.now) client tracker pass (client_numbers row.new) }
    ensures balanced { AreBalanced (map places.sides desks.now) client tracker pass }
    ensures consistent { IsConsistent tracker }
    ensures client { row.new.client ≡ row.old.client }
    ensures failed { row.new.failed ≡ row.old.failed }
    ensures stop { row.new.stop ≡ row.old.stop }
{
    let (cost, _) = tracker.completions();
    let Ok(settled) = tracker.settle(pass) else {
        unreachable!()
    };
    let taken = audit_pairs(client, desks, &settled.desks);
    row.sent = taken.sent;
    row.completed = taken.completed;
    row.cost = cost;
    row.held = sum_held(&settled.held);
}

/// Settles each client's tracker book with its pass, from the last on, and fills in the rows.
pub(crate) fn settle_clients<S: Setup>(
    trackers: Vec<TrackerBook<S>>,
    passes: Vec<ClientPass<S>>,
    desks: &[Vec<ClientDesk<S>>],
    rows: &mut [ClientReport],
)
    requires passes { length passes.items ≡ length trackers.items }
    requires rows { length rows.old ≡ length trackers.items }
    requires few { length desks.now ≤ max_servers }
    requires ready { (c : ℕ) → c < length trackers.items
        → IsReadyClient (map places.sides desks.now) c (slice_index_or trackers.items c no_tracker) (slice_index_or passes.items c []) }
    ensures a_row_each { length rows.new ≡ length trackers.items }
    ensures numbers { (c : ℕ) → c < length trackers.items
        → AreClientNumbers (map places.sides desks.now) c (slice_index_or trackers.items c no_tracker) (slice_index_or passes.items c [])
        (slice_index_or (map client_numbers rows.new) c no_client_numbers) }
    ensures balanced { (c : ℕ) → c < length trackers.items
        → AreBalanced (map places.sides desks.now) c (slice_index_or trackers.items c no_tracker) (slice_index_or passes.items c []) }
    ensures consistent { (c : ℕ) → c < length trackers.items → IsConsistent (slice_index_or trackers.items c no_tracker) }
    ensures clients { map (λ r. r.client) rows.new ≡ map (λ r. r.client) rows.old }
    ensures failed { map (λ r. r.failed) rows.new ≡ map (λ r. r.failed) rows.old }
    ensures stops { map (λ r. r.stop) rows.new ≡ map (λ r. r.stop) rows.old }
{
    let mut trackers = trackers;
    let mut passes = passes;
    while let Some(tracker) = trackers.pop() {
        let client = trackers.len();
        let Some(pass) = passes.pop() else {
            unreachable!()
        };
        settle_client(client, tracker, pass, desks, &mut rows[client]);
    }
}
