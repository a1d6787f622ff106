//! What a queue's book leaves.
ghost use Rattle.std.specs.Prelude.{ℕ, ◌≡◌, ◌≤◌, ◌<◌, ◌↔◌, drop, length, map, IfSome, IsSome, IsTrue, slice_index_or, slice_set};
ghost use Rattle.std.specs.List.{AllByRecursion};
ghost use Rattle.dmc_types.specs.Limits.{max_events};
ghost use Rattle.dmc_ledger.specs.Accounts.{after_closing};
ghost use Rattle.dmc_ledger.specs.Bundles.{client_side, grant_accounts, grant_holdings, phase_accounts, phase_holdings};
ghost use Rattle.dmc_ledger.specs.Moves.{ArePhaseOf};
ghost use Rattle.dmc_book.specs.BookState.{pass_state, worker_side, no_desk, no_worker};
ghost use Rattle.dmc_book.specs.Consistent.{reaching};
ghost use Rattle.dmc_book.specs.Moves.{AreOf};
ghost use Rattle.dmc_book.specs.PerCount.{map_counts};
ghost use Rattle.dmc_book.specs.Settling.{AreDeskUnits, AreGrantsOfDesks, AreOwn, AreSettledDesks, AreUnitsOf, AreUnitsTakenIn, IsDeskTakenIn, IsOwn, IsPhaseTakenIn, IsSettledWorker, IsTakenIn, amounts_in, closed_worker, gathered_in, open_passes};
ghost use Rattle.dmc_book.specs.internal.Settling.{AreOneOpen, ArePassesTakenIn, IsOpenOrShut, accounts_settled, having};

use crate::accounts::Accounts;
use crate::desk::are_of_phase;
use crate::pass::WorkerPass;
use crate::seat::{Seat, WorkerBooks, WorkerTills, is_enrolled};
use dmc_ledger::book::Book;
use dmc_ledger::bundle::{GrantBooks, GrantTills, PhaseBooks, PhaseTills};
use dmc_ledger::desk::ClientDesk;
use dmc_ledger::setup::Setup;
use dmc_ledger::till::Till;
use dmc_queue_history::history::EventHistory;
use dmc_tag::tag::Tag;
use indexmap::IndexSet;
use std::alloc::Global;
use std::mem::replace;

/// Grants of one phase: how many, and what they cost.
#[derive(Clone, Copy, Debug, Default, PartialEq, Eq)]
pub struct Amounts {
    pub grants: u64,
    pub cost: u64,
}

/// What was left of a client's grants in the workers' passes, of each phase.
#[derive(Clone, Copy, Debug, Default, PartialEq, Eq)]
pub struct GrantsHeld {
    pub reservation: Amounts,
    pub priority: Amounts,
}

/// What a queue's book leaves: the events recorded since the last release, how many requests were queued, the
/// workers, and the desks.
#[derive(Drop)]
pub struct Settled<T: Tag, S: Setup> {
    pub history: EventHistory<T>,
    pub left: u32,
    pub workers: Vec<Seat<S>>,
    pub desks: Vec<ClientDesk<S>>,
}

impl<T: Tag, S: Setup> Settled<T, S> {
    /// What was left in the passes for the client of the desk at a place, or `None` if there is no desk.
    pub fn held(&self, place: usize) -> Option<GrantsHeld>
        ensures desk { IsSome result ↔ (place < length self.now.desks.items) }
        ensures reservation { IfSome result (λ held.
            held.reservation ≡ gathered_in (slice_index_or (map client_side self.now.desks.items) place no_desk).books.reservation) }
        ensures priority { IfSome result (λ held.
            held.priority ≡ gathered_in (slice_index_or (map client_side self.now.desks.items) place no_desk).books.priority) }
    {
        let desk = self.desks.get(place)?;
        Some(GrantsHeld {
            reservation: gathered_in(&desk.books.reservation),
            priority: gathered_in(&desk.books.priority),
        })
    }
}

/// What the books of a phase gathered.
fn gathered_in<S: Setup>(books: &PhaseBooks<S>) -> Amounts
    ensures { result ≡ gathered_in (phase_accounts books.now) }
{
    Amounts {
        grants: books.grants.gathered(),
        cost: books.cost.gathered(),
    }
}

fn are_units_of<S: Setup>(tills: &GrantTills<S>, books: &GrantBooks<S>) -> bool
    ensures { IsTrue result ↔ AreUnitsOf (grant_holdings tills.now) (grant_accounts books.now) }
{
    are_of_phase(&tills.reservation, &books.reservation)
        && are_of_phase(&tills.priority, &books.priority)
}

/// Whether the tills are of the first desks' grant books, in the order of the desks.
fn are_desk_units<S: Setup>(desks: &[ClientDesk<S>], units: &[GrantTills<S>]) -> bool
    ensures { IsTrue result ↔ AreDeskUnits (map client_side desks.now) (map grant_holdings units.now) }
{
    if units.len() > desks.len() {
        return false;
    }
    for i in 0..units.len() {
        if !are_units_of(&units[i], &desks[i].books) {
            return false;
        }
    }
    true
}

/// Whether the pass is of a worker here, and has tills of each desk that the worker reaches.
pub(crate) fn is_own<S: Setup>(
    workers: &[Seat<S>],
    desks: &[ClientDesk<S>],
    pass: &WorkerPass<S>,
) -> bool
    ensures { IsTrue result ↔ IsOwn (map worker_side workers.now) (map client_side desks.now) (pass_state pass.now) }
{
    is_enrolled(workers, pass)
        && pass.units.len() == workers[pass.place].reach
        && are_desk_units(desks, &pass.units)
}

/// How many passes are open: one of each worker that was not dismissed.
fn open_passes<S: Setup>(workers: &[Seat<S>]) -> usize
    ensures { result ≡ open_passes (map worker_side workers.now) }
{
    let mut count = 0;
    for seat in workers {
        count += usize::from(seat.books.calls.open_tills() > 0);
    }
    count
}

/// Whether these are as many passes as are open, each of a worker here.
pub(crate) fn are_own<S: Setup>(
    workers: &[Seat<S>],
    desks: &[ClientDesk<S>],
    passes: &[WorkerPass<S>],
) -> bool
    ensures { IsTrue result ↔ AreOwn (map worker_side workers.now) (map client_side desks.now) (map pass_state passes.now) }
{
    if passes.len() != open_passes(workers) {
        return false;
    }
    for pass in passes {
        if !is_own(workers, desks, pass) {
            return false;
        }
    }
    true
}

/// Gathers a till.
fn take_till<S: Setup>(book: &mut Book<S>, till: Till<S>)
    requires { till.number ≡ book.old.number }
    ensures taken { IsTakenIn 1 till.amount book.old book.new }
    ensures only { book.old.open_tills ≡ 1 → book.new ≡ after_closing book.old }
{
    book.gather(till);
}

/// Gathers the tills of a worker.
fn take_tills<S: Setup>(books: &mut WorkerBooks<S>, tills: WorkerTills<S>)
    requires { AreOf tills books.old }
    ensures some { 0 < books.old.calls.open_tills }
    ensures only { AreOneOpen books.old → books.new ≡ map_counts after_closing books.old }
{
    take_till(&mut books.calls, tills.calls);
    take_till(&mut books.misses, tills.misses);
    take_till(&mut books.tokens, tills.tokens);
    take_till(&mut books.grants, tills.grants);
    take_till(&mut books.granted, tills.granted);
    take_till(&mut books.cost, tills.cost);
}

/// Gathers the tills of a desk.
fn take_unit<S: Setup>(desk: &mut ClientDesk<S>, unit: GrantTills<S>)
    requires { AreUnitsOf (grant_holdings unit) (client_side desk.old).books }
    ensures { IsDeskTakenIn 1 (amounts_in (grant_holdings unit).reservation) (amounts_in (grant_holdings unit).priority) (client_side desk.old) (client_side desk.new) }
{
    let GrantTills {
        reservation,
        priority,
    } = unit;
    take_phase(&mut desk.books.reservation, reservation);
    take_phase(&mut desk.books.priority, priority);
}

/// Gathers the tills of a phase.
fn take_phase<S: Setup>(books: &mut PhaseBooks<S>, tills: PhaseTills<S>)
    requires { ArePhaseOf (phase_holdings tills) (phase_accounts books.old) }
    ensures { IsPhaseTakenIn 1 (amounts_in (phase_holdings tills)) (phase_accounts books.old) (phase_accounts books.new) }
{
    let PhaseTills { grants, cost } = tills;
    take_till(&mut books.grants, grants);
    take_till(&mut books.cost, cost);
}

/// Gathers the tills of the first desks, from the last on.
fn take_units<S: Setup>(desks: &mut [ClientDesk<S>], units: Vec<GrantTills<S>>)
    requires { AreDeskUnits (map client_side desks.old) (map grant_holdings units.items) }
    ensures { AreUnitsTakenIn (map grant_holdings units.items) (map client_side desks.old) (map client_side desks.new) }
{
    let mut units = units;
    while let Some(unit) = units.pop() {
        let i = units.len();
        take_unit(&mut desks[i], unit);
    }
}

/// Gathers a pass of a worker here: the worker's tills, and those of the desks.
pub(crate) fn take_pass<S: Setup>(
    workers: &mut [Seat<S>],
    desks: &mut [ClientDesk<S>],
    pass: WorkerPass<S>,
)
    requires within { (pass_state pass).place < length workers.old }
    requires its { AreOf (pass_state pass).tills (slice_index_or (map worker_side workers.old) (pass_state pass).place no_worker).books }
    requires units { AreDeskUnits (map client_side desks.old) (pass_state pass).units }
    ensures some { 0 < (slice_index_or (map worker_side workers.old) (pass_state pass).place no_worker).books.calls.open_tills }
    ensures only { AreOneOpen (slice_index_or (map worker_side workers.old) (pass_state pass).place no_worker).books
        → map worker_side workers.new
        ≡ slice_set (map worker_side workers.old) (pass_state pass).place (closed_worker (slice_index_or (map worker_side workers.old) (pass_state pass).place no_worker)) }
    ensures desks { AreUnitsTakenIn (pass_state pass).units (map client_side desks.old) (map client_side desks.new) }
{
    let WorkerPass {
        worker: _,
        place,
        tills,
        clients: _,
        units,
        granted: _,
        recent: _,
    } = pass;
    let seat = &mut workers[place];
    seat.reach = 0;
    take_tills(&mut seat.books, tills);
    take_units(desks, units);
}

/// Gathers passes, each of a worker here.
pub(crate) fn take_passes<S: Setup>(
    workers: &mut [Seat<S>],
    desks: &mut [ClientDesk<S>],
    passes: Vec<WorkerPass<S>>,
)
    requires own { AreOwn (map worker_side workers.old) (map client_side desks.old) (map pass_state passes.items) }
    requires one_open { AllByRecursion IsOpenOrShut (map worker_side workers.old) }
    ensures workers { map worker_side workers.new ≡ map closed_worker (map worker_side workers.old) }
    ensures desks { ArePassesTakenIn (map pass_state passes.items) (map client_side desks.old) (map client_side desks.new) }
    ensures tills { (k : ℕ) → having k (map pass_state passes.items) ≡ reaching k (map worker_side workers.old) }
{
    let mut passes = passes;
    while let Some(pass) = passes.pop() {
        take_pass(workers, desks, pass);
    }
}

impl<T: Tag, S: Setup> Accounts<T, S> {
    /// Gathers the passes, which are their own, and takes all out, beside the number of requests left in the queue.
    pub(crate) fn settle(
        &mut self,
        alloc: Global,
        passes: Vec<WorkerPass<S>>,
        left: u32,
    ) -> Settled<T, S>
        requires own { AreOwn self.old.workers self.old.desks (map pass_state passes.items) }
        ensures emptied { self.new ≡ accounts_settled self.old }
        ensures history { result.history.events ≡ drop self.old.first self.old.history }
        ensures few { length result.history.events ≤ max_events }
        ensures left { result.left ≡ left }
        ensures workers { map worker_side result.workers.items ≡ map closed_worker self.old.workers }
        ensures counts { AllByRecursion (IsSettledWorker self.old.history) (map worker_side result.workers.items) }
        ensures desks { AreSettledDesks self.old.history (map pass_state passes.items) self.old.desks (map client_side result.desks.items) }
        ensures grants { AreGrantsOfDesks self.old.history self.old.desks }
    {
        take_passes(&mut self.workers, &mut self.desks, passes);
        self.clients = IndexSet::new(alloc);
        self.cost = 0;
        Settled {
            history: self.history.take(),
            left,
            workers: replace(&mut self.workers, Vec::new(alloc)),
            desks: replace(&mut self.desks, Vec::new(alloc)),
        }
    }
}
