//! What a tracker book leaves.
ghost use Rattle.std.specs.Prelude.{◌≡◌, ◌≤◌, ◌↔◌, length, map, IsTrue};
ghost use Rattle.dmc_ledger.specs.Bundles.{stamp_holdings, server_side};
ghost use Rattle.dmc_ledger.specs.Moves.{AreOf, AreWithin, after_gather};
ghost use Rattle.dmc_tlock.specs.Settling.{IsOwn, AreGathered, side_after_gather, held_of};

use crate::desk::are_of;
use dmc_history::History;
use dmc_ledger::book::Book;
use dmc_ledger::bundle::StampTills;
use dmc_ledger::desk::ServerDesk;
use dmc_ledger::setup::Setup;
use dmc_ledger::till::Till;
use dmc_tracker::event::TrackerEvent;

/// What was left in a client's pass for a server: stamps, and the deltas and rhos that they carry.
#[derive(Clone, Copy, Debug, Default, PartialEq, Eq)]
pub struct StampsHeld {
    pub stamps: u64,
    pub delta: u64,
    pub rho: u64,
}

/// What a tracker book leaves: the entries that its list kept, what was left in the pass for each server, and the desks.
#[derive(Drop)]
pub struct TrackerSettled<S: Setup> {
    pub events: History<TrackerEvent>,
    pub held: Vec<StampsHeld>,
    pub desks: Vec<ServerDesk<S>>,
}

/// Whether the tills are of the desks' stamp books, in the order of the servers.
pub(crate) fn is_own<S: Setup>(desks: &[ServerDesk<S>], tills: &[StampTills<S>]) -> bool
    ensures { IsTrue result ↔ IsOwn (map stamp_holdings tills.now) (map server_side desks.now) }
{
    if tills.len() != desks.len() {
        return false;
    }
    for i in 0..desks.len() {
        if !are_of(&tills[i], &desks[i].books) {
            return false;
        }
    }
    true
}

/// Gathers a till, and returns what it held.
fn gather_till<S: Setup>(book: &mut Book<S>, till: Till<S>) -> u64
    requires { till.number ≡ book.old.number }
    ensures book { book.new ≡ after_gather till book.old }
    ensures held { result ≡ till.amount }
    ensures within { till.amount ≤ book.old.held }
{
    let held = till.amount();
    book.gather(till);
    held
}

/// Gathers the tills of a server, and returns what they held.
fn gather_desk<S: Setup>(desk: &mut ServerDesk<S>, tills: StampTills<S>) -> StampsHeld
    requires { AreOf (stamp_holdings tills) (server_side desk.old).books }
    ensures desk { server_side desk.new ≡ side_after_gather (stamp_holdings tills) (server_side desk.old) }
    ensures held { result ≡ held_of (stamp_holdings tills) }
    ensures within { AreWithin (stamp_holdings tills) (server_side desk.old).books }
{
    let StampTills { stamps, delta, rho } = tills;
    StampsHeld {
        stamps: gather_till(&mut desk.books.stamps, stamps),
        delta: gather_till(&mut desk.books.delta, delta),
        rho: gather_till(&mut desk.books.rho, rho),
    }
}

/// Gathers the tills of each server, from the last on.
pub(crate) fn gather_pass<S: Setup>(
    desks: &mut [ServerDesk<S>],
    tills: Vec<StampTills<S>>,
    held: &mut [StampsHeld],
)
    requires own { IsOwn (map stamp_holdings tills.items) (map server_side desks.old) }
    requires room { length held.old ≡ length desks.old }
    ensures desks { AreGathered (map stamp_holdings tills.items) (map server_side desks.old) (map server_side desks.new) }
    ensures held { held.new ≡ map held_of (map stamp_holdings tills.items) }
{
    let mut tills = tills;
    while let Some(last) = tills.pop() {
        let i = tills.len();
        held[i] = gather_desk(&mut desks[i], last);
    }
}
