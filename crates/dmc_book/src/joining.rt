//! Clients that come later.
ghost use Rattle.std.specs.Prelude.{ℕ, ◌≡◌, ◌<◌, ◌≤◌, ◌++◌, ◌∷◌, ◌↔◌, [], length, map, true, None, IfErr, IfOk, IfSome, OnErr, OnOk, IsErrAnd, IsErrOf, IsNone, IsTrue, is_some, slice_index_or, vec_capacity};
ghost use Rattle.std.specs.Arc.{arc_value};
ghost use Rattle.dmc_types.specs.Limits.{max_clients};
ghost use Rattle.dmc_ledger.specs.Bundles.{client_side, grant_holdings, phase_accounts, stamp_holdings};
ghost use Rattle.dmc_book.specs.BookState.{no_desk, pass_state, worker_side};
ghost use Rattle.dmc_book.specs.Joining.{IsPhaseUnissued, IsUnissued, IsUnused, book_admitted};
ghost use Rattle.dmc_book.specs.internal.Joining.{IsAgainst, accounts_admitted};
ghost use Rattle.dmc_book.specs.Moves.{desk_place};

use crate::accounts::Accounts;
use crate::book::QueueBook;
use crate::fault::{AdmitCause, AdmitFault};
use crate::opening::MAX_DESKS;
use dmc_index::index::Indexes;
use dmc_ledger::book::Book;
use dmc_ledger::bundle::{PhaseBooks, StampTills};
use dmc_ledger::desk::ClientDesk;
use dmc_ledger::setup::Setup;
use dmc_tag::tag::Tag;
use dmc_types::ids::{ClientId, ServerId};
use indexmap::IndexSet;

impl<T: Tag, I: Indexes<T>, S: Setup> QueueBook<T, I, S> {
    /// Admits a client that has no desk here yet: from now on it can register. The desk is this server's, as `open_pair` gave it;
    /// it stays until the book is settled. No pass has tills of it yet: a pull that would grant the client is refused `Behind`
    /// until the pass is extended.
    ///
    /// Refused `Stranger`, `Known`, `Clients`, `Memory`, with the desk returned and the book as it was.
    pub fn admit(&mut self, desk: ClientDesk<S>) -> Result<(), AdmitFault<S>>
        ensures admitted { OnOk result (self.new ≡ book_admitted (client_side desk) self.old) }
        ensures unused { OnOk result (IsUnused self.old.server (client_side desk)) }
        ensures kept { OnErr result (self.new ≡ self.old) }
        ensures back { IfErr result (λ fault. fault.desk ≡ desk) }
        ensures stranger { IsErrAnd result (λ fault. fault.cause ≡ AdmitCause.Stranger)
            ↔ (IsUnused self.old.server (client_side desk) → ⊥) }
        ensures known { IsErrAnd result (λ fault. fault.cause ≡ AdmitCause.Known)
            ↔ (IsUnused self.old.server (client_side desk) × (is_some (desk_place desk.client.0 self.old.desks) ≡ true)) }
        ensures clients { IsErrAnd result (λ fault. fault.cause ≡ AdmitCause.Clients)
            ↔ (IsUnused self.old.server (client_side desk) × (desk_place desk.client.0 self.old.desks ≡ None)
            × (max_clients ≤ length self.old.desks)) }
    {
        if let Some(cause) = self.accounts.cause_against(&desk) {
            return Err(AdmitFault { desk, cause });
        }
        match self.accounts.admit(desk) {
            Ok(()) => Ok(()),
            Err(desk) => Err(AdmitFault {
                desk,
                cause: AdmitCause::Memory,
            }),
        }
    }
}

impl<T: Tag, S: Setup> Accounts<T, S> {
    /// Why a client is not admitted, but for a failed allocation.
    fn cause_against(&self, desk: &ClientDesk<S>) -> Option<AdmitCause>
        ensures cause { IfSome result (IsAgainst self.now.server self.now.desks (client_side desk.now)) }
        ensures others { IsNone result → IsAgainst self.now.server self.now.desks (client_side desk.now) AdmitCause.Memory }
    {
        if !is_unused(self.server, desk) {
            return Some(AdmitCause::Stranger);
        }
        if self.desk_with_hint(0, desk.client).is_some() {
            return Some(AdmitCause::Known);
        }
        if self.desks.len() >= MAX_DESKS {
            return Some(AdmitCause::Clients);
        }
        None
    }

    /// Puts the desk of a client behind the others, or returns it if an allocation failed.
    fn admit(&mut self, desk: ClientDesk<S>) -> Result<(), ClientDesk<S>>
        requires { IsAgainst self.old.server self.old.desks (client_side desk) AdmitCause.Memory }
        ensures admitted { OnOk result (self.new ≡ accounts_admitted (client_side desk) self.old) }
        ensures kept { OnErr result (self.new ≡ self.old) }
        ensures back { IfErr result (λ back. back ≡ desk) }
    {
        add_desk(&mut self.clients, &mut self.desks, desk)
    }
}

/// Puts a desk behind the others, and the name of its client.
fn add_desk<S: Setup>(
    clients: &mut IndexSet<ClientId>,
    desks: &mut Vec<ClientDesk<S>>,
    desk: ClientDesk<S>,
) -> Result<(), ClientDesk<S>>
    requires named { clients.old.keys ≡ map (λ d. d.client) desks.old.items }
    requires unknown { desk_place desk.client.0 (map client_side desks.old.items) ≡ None }
    ensures added { OnOk result (desks.new.items ≡ desks.old.items ++ desk ∷ []) }
    ensures kept { OnErr result (desks.new.items ≡ desks.old.items) }
    ensures named { clients.new.keys ≡ map (λ d. d.client) desks.new.items }
    ensures back { IfErr result (λ back. back ≡ desk) }
{
    if desks.reserve(1).is_err() || clients.insert(desk.client).is_err() {
        return Err(desk);
    }
    desks.push(desk).unwrap();
    Ok(())
}

/// Whether the desk is this server's and was not used.
fn is_unused<S: Setup>(server: ServerId, desk: &ClientDesk<S>) -> bool
    ensures { IsTrue result ↔ IsUnused server.0 (client_side desk.now) }
{
    desk.server == server
        && holds_nothing(&desk.held)
        && are_unissued(&desk.books.reservation)
        && are_unissued(&desk.books.priority)
}

fn holds_nothing<S: Setup>(tills: &StampTills<S>) -> bool
    ensures { IsTrue result ↔ ((stamp_holdings tills.now).stamps.amount ≡ 0) × ((stamp_holdings tills.now).delta.amount ≡ 0) × ((stamp_holdings tills.now).rho.amount ≡ 0) }
{
    tills.stamps.amount() == 0 && tills.delta.amount() == 0 && tills.rho.amount() == 0
}

/// Whether nothing was issued in a phase, and one till of each book is open.
fn are_unissued<S: Setup>(books: &PhaseBooks<S>) -> bool
    ensures { IsTrue result ↔ IsPhaseUnissued (phase_accounts books.now) }
{
    is_unissued(&books.grants) && is_unissued(&books.cost)
}

/// Whether nothing was issued, and one till is open.
fn is_unissued<S: Setup>(book: &Book<S>) -> bool
    ensures { IsTrue result ↔ IsUnissued book.now }
{
    book.total() == 0 && book.open_tills() == 1
}
