//! Settling the servers' books.
ghost use Rattle.std.specs.Prelude.{◌≡◌, ◌≤◌, ◌<◌, ◌^◌, ℕ, [], length, map, slice_index_or, vec_capacity};
ghost use Rattle.dmc_types.specs.Limits.{max_scene_clients};
ghost use Rattle.dmc_ledger.specs.Bundles.{client_side};
ghost use Rattle.dmc_book.specs.BookState.{no_desk, pass_state};
ghost use Rattle.dmc_book.specs.Settling.{AreSettledDesks};
ghost use Rattle.dmc_settle.specs.internal.Filled.{AreFewGrants, AreServerNumbers, AreWithin, IsReadyServer, granted_at, no_server_numbers, server_numbers, with_desk};
ghost use Rattle.dmc_settle.specs.internal.Places.{no_book, pass_states, sides};

use crate::report::{ServerReport, UnitsHeld};
use dmc_book::book::QueueBook;
use dmc_book::pass::WorkerPass;
use dmc_index::index::Indexes;
use dmc_ledger::desk::ClientDesk;
use dmc_ledger::setup::Setup;
use dmc_tag::tag::Tag;
use std::alloc::Global;
use std::mem::replace;

/// What desks granted, and what was left of it in passes.
#[derive(Clone, Copy)]
pub(crate) struct Granted {
    reservation: u64,
    priority: u64,
    held: UnitsHeld,
}

/// Adds how many grants the books of a desk total, and how many they have gathered.
fn add_desk<S: Setup>(granted: Granted, desk: &ClientDesk<S>) -> Granted
    requires few { AreFewGrants (client_side desk.now) }
    requires fits { AreWithin (2 ^ 40) granted }
    ensures { result ≡ with_desk granted (client_side desk.now) }
{
    let books = &desk.books;
    Granted {
        reservation: granted.reservation + books.reservation.grants.total(),
        priority: granted.priority + books.priority.grants.total(),
        held: UnitsHeld {
            reservation: granted.held.reservation + books.reservation.grants.gathered(),
            priority: granted.held.priority + books.priority.grants.gathered(),
        },
    }
}

/// Sums how many grants the books of desks total, and how many they have gathered.
fn sum_grants<S: Setup>(desks: &[ClientDesk<S>]) -> Granted
    requires few { length desks.now ≤ max_scene_clients }
    requires few_grants { (k : ℕ) → k < length desks.now → AreFewGrants (slice_index_or (map client_side desks.now) k no_desk) }
    ensures { result ≡ granted_at (map client_side desks.now) }
{
    let mut granted = Granted {
        reservation: 0,
        priority: 0,
        held: UnitsHeld::default(),
    };
    for desk in desks {
        granted = add_desk(granted, desk);
    }
    granted
}

/// Settles a server's book with its passes, and fills in its row. It returns the desks.
fn settle_server<T: Tag, I: Indexes<T>, S: Setup>(
    alloc: Global,
    book: &mut QueueBook<T, I, S>,
    passes: Vec<WorkerPass<S>>,
    row: &mut ServerReport<T>,
) -> Vec<ClientDesk<S>>
    requires { IsReadyServer book.old (map pass_state passes.items) }
    ensures desks { AreSettledDesks book.old.history (map pass_state passes.items) book.old.desks (map client_side result.items) }
    ensures numbers { AreServerNumbers T.ops book.old (map pass_state passes.items) (server_numbers row.new) }
    ensures server { row.new.server ≡ row.old.server }
    ensures stops { row.new.stops ≡ row.old.stops }
{
    let settled = book.settle_own(alloc, passes);
    let granted = sum_grants(&settled.desks);
    row.reservation = granted.reservation;
    row.priority = granted.priority;
    row.left = settled.left;
    row.held = granted.held;
    row.history = settled.history;
    settled.desks
}

/// Settles each server's book with its passes, and fills in its row. The desks go into room that was made.
pub(crate) fn settle_servers<T: Tag, I: Indexes<T>, S: Setup>(
    alloc: Global,
    books: &mut [QueueBook<T, I, S>],
    passes: Vec<Vec<WorkerPass<S>>>,
    rows: &mut [ServerReport<T>],
    desks: &mut Vec<Vec<ClientDesk<S>>>,
)
    requires passes { length passes.items ≡ length books.old }
    requires rows { length rows.old ≡ length books.old }
    requires empty { desks.old.items ≡ [] }
    requires room { length books.old ≤ vec_capacity desks.old }
    requires ready { (s : ℕ) → s < length books.old → IsReadyServer (slice_index_or books.old s no_book) (slice_index_or (map pass_states passes.items) s []) }
    ensures desks_each { length desks.new.items ≡ length books.old }
    ensures desks { (s : ℕ) → s < length books.old
        → AreSettledDesks (slice_index_or books.old s no_book).history (slice_index_or (map pass_states passes.items) s [])
        (slice_index_or books.old s no_book).desks (slice_index_or (map sides desks.new.items) s []) }
    ensures numbers { (s : ℕ) → s < length books.old
        → AreServerNumbers T.ops (slice_index_or books.old s no_book) (slice_index_or (map pass_states passes.items) s [])
        (slice_index_or (map server_numbers rows.new) s no_server_numbers) }
    ensures servers { map (λ r. r.server) rows.new ≡ map (λ r. r.server) rows.old }
    ensures stops { map (λ r. r.stops) rows.new ≡ map (λ r. r.stops) rows.old }
{
    let mut passes = passes;
    for s in 0..books.len() {
        let own = replace(&mut passes[s], Vec::new(alloc));
        let settled = settle_server(alloc, &mut books[s], own, &mut rows[s]);
        desks.push(settled).unwrap();
    }
}
