ghost use Rattle.std.specs.Prelude.{◌≡◌, IsTrue};
ghost use Rattle.dmc_ledger.specs.Bundles.{AreOnlyTills, IsOnlyTill, IsPair, client_side, phase_accounts, phase_holdings, server_side};

use crate::books::play;
use dmc_book::pass::WorkerPass;
use dmc_book::seat::Seat;
use dmc_book::settled::{Amounts, Settled};
use dmc_ledger::book::Book as LedgerBook;
use dmc_ledger::bundle::{PhaseBooks, PhaseTills};
use dmc_ledger::desk::{ClientDesk, ServerDesk, close_pair};
use dmc_ledger::mint::Blank;
use dmc_ledger::setup::Setup;
use dmc_ledger::till::Till;
use dmc_tests_setup::opening::{
    Book, Opened, drop_book, drop_opened, only, open, open_other, open_queue,
};
use dmc_tick::tick::TickTag;
use dmc_tlock::book::TrackerBook;
use dmc_tlock::pass::ClientPass;
use dmc_tlock::settled::TrackerSettled;
use std::alloc::Global;
use std::marker::Brand;
use std::test::Fail;

/// What a queue's book leaves: the requests queued, the worker's numbers, what the worker's grants cost, and what is left of the
/// client's grants.
#[derive(Clone, Copy, Debug, PartialEq, Eq)]
pub(crate) struct QueueLeft {
    pub(crate) requests: u32,
    pub(crate) numbers: (u64, u64, u64, u64, u64),
    pub(crate) cost: u64,
    pub(crate) units: Amounts,
}

/// What both books of a pair leave: the stamps left in the client's pass, and, once the pair is closed, its stamps, its grants and
/// what they cost.
#[derive(Clone, Copy, Debug, PartialEq, Eq)]
pub(crate) struct Left {
    pub(crate) queue: QueueLeft,
    pub(crate) stamps: u64,
    pub(crate) closed: (u64, u64, u64),
}

fn numbers<S: Setup>(seat: &Seat<S>) -> (u64, u64, u64, u64, u64) {
    (
        seat.calls(),
        seat.misses(),
        seat.tokens(),
        seat.grants(),
        seat.granted(),
    )
}

fn read_left<S: Setup>(settled: &Settled<TickTag, S>) -> Result<QueueLeft, Fail> {
    let Some(seat) = settled.workers.first() else {
        return Err(Fail::new("a worker"));
    };
    let Some(held) = settled.held(0) else {
        return Err(Fail::new("a client"));
    };
    Ok(QueueLeft {
        requests: settled.left,
        numbers: numbers(seat),
        cost: seat.cost(),
        units: held.priority,
    })
}

/// What a queue's book leaves, and the desk of its client.
fn take_left<S: Setup>(
    settled: &mut Settled<TickTag, S>,
) -> Result<(QueueLeft, ClientDesk<S>), Fail> {
    let left = read_left(settled)?;
    match settled.desks.pop() {
        Some(desk) => Ok((left, desk)),
        None => Err(Fail::new("the desk of the client")),
    }
}

/// Settles a queue's book. If the passes are not its own, they come back.
fn settle_book<S: Setup>(
    alloc: Global,
    book: &mut Book<S>,
    passes: Vec<WorkerPass<S>>,
) -> Result<Settled<TickTag, S>, Vec<WorkerPass<S>>> {
    book.settle(alloc, passes)
}

/// Settles a queue's book with its one pass: what it leaves, and the desk of its client.
fn settle_queue<S: Setup>(
    alloc: Global,
    book: &mut Book<S>,
    pass: WorkerPass<S>,
) -> Result<(QueueLeft, ClientDesk<S>), Fail> {
    let passes = only(alloc, pass)?;
    match settle_book(alloc, book, passes) {
        Ok(mut settled) => take_left(&mut settled),
        Err(_) => Err(Fail::new("its own pass")),
    }
}

/// The stamps that were left in the pass, and the desk of the one server.
fn take_stamps<S: Setup>(settled: &mut TrackerSettled<S>) -> Result<(u64, ServerDesk<S>), Fail> {
    let Some(held) = settled.held.pop() else {
        return Err(Fail::new("what the pass held"));
    };
    match settled.desks.pop() {
        Some(desk) => Ok((held.stamps, desk)),
        None => Err(Fail::new("the desk of the server")),
    }
}

/// Settles a tracker's book: the stamps that were left in the pass, and the desk of the one server.
fn settle_tracker<S: Setup>(
    tracker: TrackerBook<S>,
    tills: ClientPass<S>,
) -> Result<(u64, ServerDesk<S>), Fail> {
    match tracker.settle(tills) {
        Ok(mut settled) => take_stamps(&mut settled),
        Err(_) => Err(Fail::new("its own pass")),
    }
}

fn is_only<S: Setup>(book: &LedgerBook<S>, till: &Till<S>) -> bool
    ensures { IsTrue result → IsOnlyTill book.now till.now }
{
    till.number() == book.number() && book.open_tills() == 1
}

fn are_only<S: Setup>(books: &PhaseBooks<S>, tills: &PhaseTills<S>) -> bool
    ensures { IsTrue result → AreOnlyTills (phase_accounts books.now) (phase_holdings tills.now) }
{
    is_only(&books.grants, &tills.grants) && is_only(&books.cost, &tills.cost)
}

fn is_pair<S: Setup>(client: &ClientDesk<S>, server: &ServerDesk<S>) -> bool
    ensures { IsTrue result → IsPair (client_side client.now) (server_side server.now) }
{
    is_only(&server.books.stamps, &client.held.stamps)
        && is_only(&server.books.delta, &client.held.delta)
        && is_only(&server.books.rho, &client.held.rho)
        && are_only(&client.books.reservation, &server.held.reservation)
        && are_only(&client.books.priority, &server.held.priority)
}

/// Closes the pair: its stamps, its grants in phase Priority, and what they cost.
fn close<S: Setup>(client: ClientDesk<S>, server: ServerDesk<S>) -> Result<(u64, u64, u64), Fail> {
    if !is_pair(&client, &server) {
        return Err(Fail::new("a pair"));
    }
    let (stamps, grants) = close_pair(client, server);
    let granted = &grants.priority;
    Ok((
        stamps.stamps.gathered(),
        granted.grants.gathered(),
        granted.cost.gathered(),
    ))
}

/// Settles both books, and closes the pair.
fn settle_both<S: Setup>(
    alloc: Global,
    book: &mut Book<S>,
    pass: WorkerPass<S>,
    tracker: TrackerBook<S>,
    tills: ClientPass<S>,
) -> Result<Left, Fail> {
    let (queue, client) = settle_queue(alloc, book, pass)?;
    let (stamps, server) = settle_tracker(tracker, tills)?;
    Ok(Left {
        queue,
        stamps,
        closed: close(client, server)?,
    })
}

/// What the books that were opened leave.
pub(crate) fn settle_opened<S: Setup>(alloc: Global, opened: Opened<S>) -> Result<Left, Fail> {
    let Opened {
        mut book,
        pass,
        tracker,
        tills,
    } = opened;
    let left = settle_both(alloc, &mut book, pass, tracker, tills);
    drop_book(book);
    left
}

/// A circle, and what its books leave.
fn settle_all<S: Setup>(alloc: Global, blank: Blank) -> Result<Left, Fail>
    requires { blank.name ≡ S.name }
{
    let mut mint = blank.open::<S>();
    let mut opened = open(alloc, &mut mint, 8)?;
    match play(&mut opened) {
        Ok(_) => settle_opened(alloc, opened),
        Err(fail) => {
            drop_opened(opened);
            Err(fail)
        }
    }
}

#[test]
fn settle_circle(rt: HostRuntime) -> Result<(), Fail> {
    let left = Left {
        queue: QueueLeft {
            requests: 0,
            numbers: (3, 0, 9, 1, 9),
            cost: 1,
            units: Amounts::default(),
        },
        stamps: 1,
        closed: (2, 1, 1),
    };
    assert_eq!(rt; settle_all::<Brand>(rt.alloc(), Blank::new(14))?, left);
    Ok(())
}

/// How many passes are returned, or `None` if the book is settled.
fn handed_back<S: Setup>(
    alloc: Global,
    book: &mut Book<S>,
    passes: Vec<WorkerPass<S>>,
) -> Option<usize> {
    match settle_book(alloc, book, passes) {
        Ok(_) => None,
        Err(back) => Some(back.len()),
    }
}

/// How many passes a book returns of another book's pass, of none, of its own, and, once settled, of none.
fn hand_in<S: Setup>(
    alloc: Global,
    book: &mut Book<S>,
    own: WorkerPass<S>,
    other: WorkerPass<S>,
) -> Result<[Option<usize>; 4], Fail> {
    let others = only(alloc, other)?;
    let own = only(alloc, own)?;
    Ok([
        handed_back(alloc, book, others),
        handed_back(alloc, book, Vec::new(alloc)),
        handed_back(alloc, book, own),
        handed_back(alloc, book, Vec::new(alloc)),
    ])
}

fn settle_in_turn<S: Setup>(alloc: Global, blank: Blank) -> Result<[Option<usize>; 4], Fail>
    requires { blank.name ≡ S.name }
{
    let mut mint = blank.open::<S>();
    let other = open_other(alloc, &mut mint)?;
    let (mut book, own) = open_queue(alloc, &mut mint)?;
    let handed = hand_in(alloc, &mut book, own, other);
    drop_book(book);
    handed
}

#[test]
fn settle_with_other_passes(rt: HostRuntime) -> Result<(), Fail> {
    assert_eq!(rt;
        settle_in_turn::<Brand>(rt.alloc(), Blank::new(28))?,
        [Some(1), Some(0), None, None]
    );
    Ok(())
}
