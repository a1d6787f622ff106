//! The tills of a client.
ghost use Rattle.std.specs.Prelude.{◌≡◌, ◌<◌, ◌≤◌, ℕ, None, length, map, vec_capacity, slice_index_or, slice_set, IfSome, IsSome, ◌↔◌};
ghost use Rattle.std.specs.Borrow.{sem, LendsIf};
ghost use Rattle.dmc_ledger.specs.Bundles.{stamp_holdings, stamp_accounts, server_side};
ghost use Rattle.dmc_ledger.specs.Moves.{books_after_opening, new_tills};
ghost use Rattle.dmc_ledger.specs.contracts.bundle.StampTills.{the_row as tills_row};
ghost use Rattle.dmc_tlock.specs.BookState.{no_side, tills_at};
ghost use Rattle.dmc_tlock.specs.Opening.{list_number, new_pass, side_after_opening};
ghost use Rattle.dmc_tlock.specs.internal.Opening.{HasList, IsOneTill};
ghost use Rattle.dmc_tlock.specs.contracts.pass.ClientPass.{the_row};

use dmc_ledger::bundle::{StampBooks, StampTills};
use dmc_ledger::desk::ServerDesk;
use dmc_ledger::growing::BlankList;
use dmc_ledger::setup::Setup;
use dmc_types::ids::ServerId;
use std::marker::Model;

/// A client's tills for its stamps, one bundle for each server. Contracts see what each holds, in the order of the servers.
///
/// A bundle is lent to whoever stamps or submits. What was lent may come back changed: that is found out when it is next
/// used, or when the pass is settled.
#[derive(Drop)]
pub struct ClientPass<S: Setup> {
    pub(crate) tills: Vec<StampTills<S>>,
}

impl<S: Setup> Model for ClientPass<S> {
    ghost use Rattle.std.specs.Prelude.{List, map};
    ghost use Rattle.dmc_ledger.specs.Bundles.{StampHoldings, stamp_holdings};

    ghost Value = { List StampHoldings };

    ghost view = { λ p. map stamp_holdings p.tills.items };
}

impl<S: Setup> ClientPass<S> {
    /// Lends the tills for a server, or `None` if the pass has none.
    pub fn tills(&mut self, server: ServerId) -> Option<&mut StampTills<S>>
        // The pass has then what the tills were given back as.
        ensures* writes_back { sem 𝓛 (LendsIf (the_row S.row (record { name = S.name })) (tills_row S.row (record { name = S.name })) self.entry result (λ tills. slice_set self.old server.0 (stamp_holdings tills)) self.old) }

        ensures value { IfSome result (λ tills. stamp_holdings tills.now ≡ tills_at self.old server) }
        ensures some { IsSome result ↔ (server.0 < length self.old) }
    {
        self.tills.get_mut(server.0 as usize)
    }
}

/// Opens a till of each book.
fn open_tills<S: Setup>(books: &mut StampBooks<S>) -> StampTills<S>
    requires { IsOneTill (stamp_accounts books.old) }
    ensures books { stamp_accounts books.new ≡ books_after_opening (stamp_accounts books.old) }
    ensures tills { stamp_holdings result ≡ new_tills (stamp_accounts books.old) }
{
    let Ok(stamps) = books.stamps.till() else {
        unreachable!()
    };
    let Ok(delta) = books.delta.till() else {
        unreachable!()
    };
    let Ok(rho) = books.rho.till() else {
        unreachable!()
    };
    StampTills { stamps, delta, rho }
}

/// Opens a till of each stamp book of a desk, which then has no list.
fn open_desk<S: Setup>(desk: &mut ServerDesk<S>) -> StampTills<S>
    requires { IsOneTill (server_side desk.old).books }
    ensures desk { server_side desk.new ≡ side_after_opening (server_side desk.old) }
    ensures tills { stamp_holdings result ≡ new_tills (server_side desk.old).books }
{
    desk.list = None;
    open_tills(&mut desk.books)
}

/// Opens a till of each stamp book of each desk, in room that was made.
fn open_pass<S: Setup>(desks: &mut [ServerDesk<S>], tills: &mut Vec<StampTills<S>>)
    requires one { (k : ℕ) → k < length desks.old → IsOneTill (slice_index_or (map server_side desks.old) k no_side).books }
    requires empty { length tills.old.items ≡ 0 }
    requires room { length desks.old ≤ vec_capacity tills.old }
    ensures desks { map server_side desks.new ≡ map side_after_opening (map server_side desks.old) }
    ensures tills { map stamp_holdings tills.new.items ≡ new_pass (map server_side desks.old) }
{
    for i in 0..desks.len() {
        let opened = open_desk(&mut desks[i]);
        tills.push(opened).unwrap();
    }
}

/// Takes the list of a desk, with its number.
fn take_list<S: Setup>(desk: &mut ServerDesk<S>) -> (u32, BlankList<S>)
    requires { HasList (server_side desk.old) }
    ensures is { result.0 ≡ (server_side desk.old).books.stamps.number }
    ensures number { result.1.number ≡ result.0 }
    ensures desk { server_side desk.new ≡ record (server_side desk.old) { list = None } }
{
    let Some(list) = desk.list.take() else {
        unreachable!()
    };
    (desk.books.stamps.number(), list)
}

/// Takes the list of the first desk, with its number, and opens a till of each stamp book of each desk, in room that was made.
/// No desk has a list then.
pub(crate) fn open_desks<S: Setup>(
    desks: &mut [ServerDesk<S>],
    tills: &mut Vec<StampTills<S>>,
) -> (u32, BlankList<S>)
    requires some { 0 < length desks.old }
    requires list { HasList (slice_index_or (map server_side desks.old) 0 no_side) }
    requires one { (k : ℕ) → k < length desks.old → IsOneTill (slice_index_or (map server_side desks.old) k no_side).books }
    requires empty { length tills.old.items ≡ 0 }
    requires room { length desks.old ≤ vec_capacity tills.old }
    ensures is { result.0 ≡ list_number (map server_side desks.old) }
    ensures number { result.1.number ≡ result.0 }
    ensures desks { map server_side desks.new ≡ map side_after_opening (map server_side desks.old) }
    ensures tills { map stamp_holdings tills.new.items ≡ new_pass (map server_side desks.old) }
{
    let list = take_list(&mut desks[0]);
    open_pass(desks, tills);
    list
}
