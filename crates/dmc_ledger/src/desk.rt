//! The two desks of a client at a server. Each has the books of what it gives out, and a till of the other's books for what it
//! has taken in.
ghost use Rattle.std.specs.Prelude.{◌≡◌, ◌+◌, ◌-◌, ◌<◌, ◌↔◌, IfOk, OnOk, OnErr, IsErr};
ghost use Rattle.dmc_ledger.specs.Accounts.{after_closing, new_book, new_till};
ghost use Rattle.dmc_ledger.specs.Bundles.{IsOnlyTill, AreOnlyTills, IsPair, books_per_pair, phase_accounts, phase_holdings, new_phase_books, new_phase_tills, closed_phase, client_side, server_side, stamp_accounts, grant_accounts, new_client_side, new_server_side, closed_stamps, closed_grants};

use crate::book::Book;
use crate::bundle::{GrantBooks, GrantTills, PhaseBooks, PhaseTills, StampBooks, StampTills};
use crate::full::Full;
use crate::growing::BlankList;
use crate::mint::Mint;
use crate::setup::Setup;
use crate::till::Till;
use dmc_types::ids::{ClientId, ServerId};

/// The queue's desk for a client: the stamps that it accepted, and the books of the grants that it gave.
#[derive(Drop)]
pub struct ClientDesk<S: Setup> {
    pub client: ClientId,
    pub server: ServerId,
    pub held: StampTills<S>,
    pub books: GrantBooks<S>,
}

/// The tracker's desk for a server: the books of the stamps that it made, and the grants that it counted. Until a tracker has
/// it, it also has an empty list that only grows, of the number of the book of stamps.
#[derive(Drop)]
pub struct ServerDesk<S: Setup> {
    pub client: ClientId,
    pub server: ServerId,
    pub books: StampBooks<S>,
    pub held: GrantTills<S>,
    pub list: Option<BlankList<S>>,
}

/// How many books the desks of a client and a server have: of stamps, deltas, rhos, and the grants of each phase and their costs.
pub const BOOKS_PER_PAIR: u64 = 7;

/// The desks of a client at a server, with new books. Each book has one open till, at the other desk. It is refused `Full` if
/// fewer than `BOOKS_PER_PAIR` books are left.
pub fn open_pair<S: Setup>(
    mint: &mut Mint<S>,
    client: ClientId,
    server: ServerId,
) -> Result<(ClientDesk<S>, ServerDesk<S>), Full>
    ensures full { IsErr result ↔ (mint.old.left < books_per_pair) }
    ensures client_desk { IfOk result (λ pair. client_side pair.0 ≡ new_client_side client.0 server.0 mint.old.opened) }
    ensures server_desk { IfOk result (λ pair. server_side pair.1 ≡ new_server_side client.0 server.0 mint.old.opened) }
    ensures mint { OnOk result (mint.new ≡ record { opened = mint.old.opened + books_per_pair; left = mint.old.left - books_per_pair }) }
    ensures kept { OnErr result (mint.new ≡ mint.old) }
{
    if mint.left() < BOOKS_PER_PAIR {
        return Err(Full);
    }
    let ((stamps, list), stamp_till) = open_first(mint);
    let (delta, delta_till) = open_one(mint);
    let (rho, rho_till) = open_one(mint);
    let (reservation, reservation_tills) = open_phase(mint);
    let (priority, priority_tills) = open_phase(mint);
    let client_desk = ClientDesk {
        client,
        server,
        held: StampTills {
            stamps: stamp_till,
            delta: delta_till,
            rho: rho_till,
        },
        books: GrantBooks {
            reservation,
            priority,
        },
    };
    let server_desk = ServerDesk {
        client,
        server,
        books: StampBooks { stamps, delta, rho },
        held: GrantTills {
            reservation: reservation_tills,
            priority: priority_tills,
        },
        list: Some(list),
    };
    Ok((client_desk, server_desk))
}

/// A new book with a list of its number, and its first till.
fn open_first<S: Setup>(mint: &mut Mint<S>) -> ((Book<S>, BlankList<S>), Till<S>)
    requires { 0 < mint.old.left }
    ensures book { result.0.0 ≡ new_book mint.old.opened }
    ensures list { result.0.1.number ≡ mint.old.opened }
    ensures till { result.1 ≡ new_till mint.old.opened }
    ensures mint { mint.new ≡ record { opened = mint.old.opened + 1; left = mint.old.left - 1 } }
{
    let Ok((mut book, list)) = mint.open_with_list() else {
        unreachable!()
    };
    let Ok(till) = book.till() else {
        unreachable!()
    };
    ((book, list), till)
}

/// A new book and its first till.
fn open_one<S: Setup>(mint: &mut Mint<S>) -> (Book<S>, Till<S>)
    requires { 0 < mint.old.left }
    ensures book { result.0 ≡ new_book mint.old.opened }
    ensures till { result.1 ≡ new_till mint.old.opened }
    ensures mint { mint.new ≡ record { opened = mint.old.opened + 1; left = mint.old.left - 1 } }
{
    let ((book, _), till) = open_first(mint);
    (book, till)
}

/// New books of a phase, and their first tills.
fn open_phase<S: Setup>(mint: &mut Mint<S>) -> (PhaseBooks<S>, PhaseTills<S>)
    requires { 1 < mint.old.left }
    ensures books { phase_accounts result.0 ≡ new_phase_books mint.old.opened }
    ensures tills { phase_holdings result.1 ≡ new_phase_tills mint.old.opened }
    ensures mint { mint.new ≡ record { opened = mint.old.opened + 2; left = mint.old.left - 2 } }
{
    let (grants, grants_till) = open_one(mint);
    let (cost, cost_till) = open_one(mint);
    let books = PhaseBooks { grants, cost };
    let tills = PhaseTills {
        grants: grants_till,
        cost: cost_till,
    };
    (books, tills)
}

/// Gathers both held bundles of a pair, so that no till of it is open. Each book's total is then what was gathered.
pub fn close_pair<S: Setup>(
    client: ClientDesk<S>,
    server: ServerDesk<S>,
) -> (StampBooks<S>, GrantBooks<S>)
    requires { IsPair (client_side client) (server_side server) }
    ensures stamps { stamp_accounts result.0 ≡ closed_stamps (stamp_accounts server.books) }
    ensures grants { grant_accounts result.1 ≡ closed_grants (grant_accounts client.books) }
{
    let ClientDesk {
        client: _,
        server: _,
        held: stamps,
        books: grants,
    } = client;
    let ServerDesk {
        client: _,
        server: _,
        books: stamp_books,
        held: grant_tills,
        list: _,
    } = server;
    (
        gather_stamps(stamp_books, stamps),
        gather_grants(grants, grant_tills),
    )
}

fn gather_stamps<S: Setup>(books: StampBooks<S>, tills: StampTills<S>) -> StampBooks<S>
    requires stamps { IsOnlyTill books.stamps tills.stamps }
    requires delta { IsOnlyTill books.delta tills.delta }
    requires rho { IsOnlyTill books.rho tills.rho }
    ensures { stamp_accounts result ≡ closed_stamps (stamp_accounts books) }
{
    let StampBooks { stamps, delta, rho } = books;
    let StampTills {
        stamps: stamp_till,
        delta: delta_till,
        rho: rho_till,
    } = tills;
    StampBooks {
        stamps: gather_last(stamps, stamp_till),
        delta: gather_last(delta, delta_till),
        rho: gather_last(rho, rho_till),
    }
}

fn gather_grants<S: Setup>(books: GrantBooks<S>, tills: GrantTills<S>) -> GrantBooks<S>
    requires reservation { AreOnlyTills (phase_accounts books.reservation) (phase_holdings tills.reservation) }
    requires priority { AreOnlyTills (phase_accounts books.priority) (phase_holdings tills.priority) }
    ensures { grant_accounts result ≡ closed_grants (grant_accounts books) }
{
    let GrantBooks {
        reservation,
        priority,
    } = books;
    let GrantTills {
        reservation: reservation_tills,
        priority: priority_tills,
    } = tills;
    GrantBooks {
        reservation: gather_phase(reservation, reservation_tills),
        priority: gather_phase(priority, priority_tills),
    }
}

fn gather_phase<S: Setup>(books: PhaseBooks<S>, tills: PhaseTills<S>) -> PhaseBooks<S>
    requires { AreOnlyTills (phase_accounts books) (phase_holdings tills) }
    ensures { phase_accounts result ≡ closed_phase (phase_accounts books) }
{
    let PhaseBooks { grants, cost } = books;
    let PhaseTills {
        grants: grants_till,
        cost: cost_till,
    } = tills;
    PhaseBooks {
        grants: gather_last(grants, grants_till),
        cost: gather_last(cost, cost_till),
    }
}

/// The book with its only till gathered.
fn gather_last<S: Setup>(book: Book<S>, till: Till<S>) -> Book<S>
    requires { IsOnlyTill book till }
    ensures { result ≡ after_closing book }
{
    let mut book = book;
    book.gather(till);
    book
}
