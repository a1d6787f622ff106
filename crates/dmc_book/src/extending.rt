//! Passes that are extended to the desks that came later.
ghost use Rattle.std.specs.Prelude.{ℕ, ◌≡◌, ◌<◌, ◌≤◌, ◌↔◌, length, map, IfOk, OnErr, OnOk, IsErrOf, IsTrue, slice_index_or, vec_capacity};
ghost use Rattle.std.specs.Arc.{arc_value};
ghost use Rattle.dmc_ledger.specs.Bundles.{client_side};
ghost use Rattle.dmc_book.specs.BookState.{no_desk, pass_state, worker_side};
ghost use Rattle.dmc_book.specs.Joining.{book_extended, desks_from, pass_extended, reach_at, with_reach};
ghost use Rattle.dmc_book.specs.internal.Joining.{accounts_extended};
ghost use Rattle.dmc_book.specs.Moves.{IsEnrolled};
ghost use Rattle.dmc_book.specs.Opening.{AreApart};
ghost use Rattle.dmc_book.specs.internal.Opening.{HaveRoom};

use crate::accounts::Accounts;
use crate::book::QueueBook;
use crate::fault::ExtendFault;
use crate::opening::{name_clients, open_units};
use crate::pass::WorkerPass;
use crate::seat::{Seat, is_enrolled};
use dmc_index::index::Indexes;
use dmc_ledger::bundle::GrantTills;
use dmc_ledger::desk::ClientDesk;
use dmc_ledger::setup::Setup;
use dmc_tag::tag::Tag;
use dmc_types::ids::ClientId;
use indexmap::IndexSet;
use std::alloc::{AllocError, Global};
use std::sync::Arc;

impl<T: Tag, I: Indexes<T>, S: Setup> QueueBook<T, I, S> {
    /// Opens tills of the desks that came after the pass, which has then tills of each desk. A worker calls it if its pull is
    /// refused `Behind`, and pulls again. It takes a time, and memory, that grow with the number of desks.
    ///
    /// Refused `Stranger`, `Memory`, with nothing changed.
    pub fn extend(&mut self, alloc: Global, pass: &mut WorkerPass<S>) -> Result<(), ExtendFault>
        ensures book { OnOk result (self.new ≡ book_extended (pass_state pass.old).place self.old) }
        ensures pass { OnOk result (pass_state pass.new ≡ pass_extended self.old.desks (pass_state pass.old)) }
        ensures kept { OnErr result (self.new ≡ self.old) }
        ensures pass_kept { OnErr result (pass_state pass.new ≡ pass_state pass.old) }
        ensures stranger { IsErrOf result ExtendFault.Stranger
            ↔ (IsEnrolled self.old.workers (pass_state pass.old)
            × (length (pass_state pass.old).units ≡ reach_at (pass_state pass.old).place self.old.workers) → ⊥) }
    {
        self.accounts.extend(alloc, pass)
    }
}

impl<T: Tag, S: Setup> Accounts<T, S> {
    /// Opens tills of the desks that came after the pass: see `QueueBook::extend`.
    fn extend(&mut self, alloc: Global, pass: &mut WorkerPass<S>) -> Result<(), ExtendFault>
        ensures accounts { OnOk result (self.new ≡ accounts_extended (pass_state pass.old).place self.old) }
        ensures pass { OnOk result (pass_state pass.new ≡ pass_extended self.old.desks (pass_state pass.old)) }
        ensures kept { OnErr result (self.new ≡ self.old) }
        ensures pass_kept { OnErr result (pass_state pass.new ≡ pass_state pass.old) }
        ensures stranger { IsErrOf result ExtendFault.Stranger
            ↔ (IsEnrolled self.old.workers (pass_state pass.old)
            × (length (pass_state pass.old).units ≡ reach_at (pass_state pass.old).place self.old.workers) → ⊥) }
    {
        if !has_reach(&self.workers, pass) {
            return Err(ExtendFault::Stranger);
        }
        let Ok(clients) = make_more_room(alloc, &self.desks, &mut pass.units) else {
            return Err(ExtendFault::Memory);
        };
        open_rest(&mut self.workers, &mut self.desks, pass, clients);
        Ok(())
    }
}

/// Whether the pass is of a worker here, and has tills of each desk that the worker reaches.
fn has_reach<S: Setup>(workers: &[Seat<S>], pass: &WorkerPass<S>) -> bool
    ensures { IsTrue result
        ↔ (IsEnrolled (map worker_side workers.now) (pass_state pass.now)
        × (length (pass_state pass.now).units ≡ reach_at (pass_state pass.now).place (map worker_side workers.now))) }
{
    is_enrolled(workers, pass) && pass.units.len() == workers[pass.place].reach
}

/// The names of the desks, and room for a till of each.
fn make_more_room<S: Setup>(
    alloc: Global,
    desks: &[ClientDesk<S>],
    units: &mut Vec<GrantTills<S>>,
) -> Result<Arc<IndexSet<ClientId>, Global>, AllocError>
    requires apart { AreApart (λ d. d.client) (map client_side desks.now) }
    ensures named { IfOk result (λ names. (arc_value names).keys ≡ map (λ d. d.client) desks.now) }
    ensures room { OnOk result (length desks.now ≤ vec_capacity units.new) }
    ensures kept { units.new.items ≡ units.old.items }
{
    let Some(clients) = name_clients(alloc, desks)? else {
        unreachable!()
    };
    units.reserve(desks.len().saturating_sub(units.len()))?;
    let clients = Arc::new(alloc, clients)?;
    Ok(clients)
}

/// Opens the tills of the desks that came after the pass, in room that was made.
fn open_rest<S: Setup>(
    workers: &mut Vec<Seat<S>>,
    desks: &mut [ClientDesk<S>],
    pass: &mut WorkerPass<S>,
    clients: Arc<IndexSet<ClientId>, Global>,
)
    requires within { pass.old.place < length workers.old.items }
    requires reach { length pass.old.units.items ≤ length desks.old }
    requires some_left { (k : ℕ) → length pass.old.units.items ≤ k → k < length desks.old
        → HaveRoom (slice_index_or (map client_side desks.old) k no_desk).books }
    requires room { length desks.old ≤ vec_capacity pass.old.units }
    requires named { (arc_value clients).keys ≡ map (λ d. d.client) desks.old }
    ensures workers { map worker_side workers.new.items ≡ with_reach pass.old.place (length desks.old) (map worker_side workers.old.items) }
    ensures desks { map client_side desks.new ≡ desks_from (length pass.old.units.items) (map client_side desks.old) }
    ensures pass { pass_state pass.new ≡ pass_extended (map client_side desks.old) (pass_state pass.old) }
{
    workers[pass.place].reach = desks.len();
    let (_, later) = desks.split_at_mut(pass.units.len());
    open_units(later, &mut pass.units);
    pass.clients = clients;
}
