//! Tests that a tracker's book has to pass twice: in hand, and through its lock.
ghost use Rattle.dmc_tlock.specs.Consistent.{IsBalanced};

use dmc_ledger::bundle::{PhaseTills, StampTills};
use dmc_ledger::mint::Mint;
use dmc_ledger::setup::Setup;
use dmc_tests_setup::opening::ZERO;
use dmc_tests_setup::tracker_calls::{AtLock, TrackerCalls};
use dmc_tests_setup::tracker_setup::{Opened, open_book};
use dmc_tlock::book::TrackerBook;
use dmc_tlock::laws::book_is_consistent;
use dmc_tlock::lock::TrackerLock;
use dmc_tlock::pass::ClientPass;
use dmc_tlock::settled::TrackerSettled;
use dmc_types::config::Counting;
use dmc_types::ids::ClientId;
use std::alloc::Global;
use std::sync::Wait;
use std::test::Fail;

/// What a test does with the tracker of a client and server 0, with the client's tills and grants of it in phase Priority.
pub(crate) trait TrackerTest<S: Setup> {
    /// What its calls return.
    type Seen: Copy;

    fn run<C: TrackerCalls<S>>(
        &self,
        tracker: &mut C,
        tills: &mut StampTills<S>,
        grants: &mut PhaseTills<S>,
    ) -> Result<Self::Seen, Fail>;
}

/// What a book leaves: how many entries it released, how many more it had, and the stamps in its pass with their counts.
#[derive(Clone, Copy, Debug, PartialEq, Eq)]
pub(crate) struct Left {
    pub(crate) released: u64,
    pub(crate) entries: usize,
    pub(crate) held: (u64, u64, u64),
}

/// What a book leaves that had released this number of entries.
fn left_of<S: Setup>(settled: &TrackerSettled<S>, released: u64) -> Option<Left> {
    let held = settled.held.first()?;
    Some(Left {
        released,
        entries: settled.events.len(),
        held: (held.stamps, held.delta, held.rho),
    })
}

/// Settles a book with its own pass.
fn settle<S: Setup>(book: TrackerBook<S>, pass: ClientPass<S>) -> Option<Left> {
    let released = book.first();
    let settled = book.settle(pass).ok()?;
    left_of(&settled, released)
}

/// What a test saw, and what its book left.
fn with_left<X: Copy>(seen: Result<X, Fail>, left: Option<Left>) -> Result<(X, Left), Fail> {
    let seen = seen?;
    match left {
        Some(left) => Ok((seen, left)),
        None => Err(Fail::new("a book that settles with its own pass")),
    }
}

/// The test with the book in hand.
fn run_in_hand<S: Setup, X: TrackerTest<S>>(
    opened: &mut Opened<S>,
    test: &X,
) -> Result<X::Seen, Fail> {
    match opened.pass.tills(ZERO) {
        Some(tills) => test.run(&mut opened.book, tills, &mut opened.grants),
        None => Err(Fail::new("tills for the server")),
    }
}

fn seen_in_hand<S: Setup, X: TrackerTest<S>>(
    mut opened: Opened<S>,
    test: &X,
) -> Result<(X::Seen, Left), Fail> {
    let seen = run_in_hand(&mut opened, test);
    let Opened {
        book,
        pass,
        desk,
        grants,
    } = opened;
    drop((desk, grants));
    with_left(seen, settle(book, pass))
}

/// The test through the book's lock.
fn run_at_lock<S: Setup, R: Wait, X: TrackerTest<S>>(
    mut tracker: AtLock<'_, S, R>,
    pass: &mut ClientPass<S>,
    grants: &mut PhaseTills<S>,
    test: &X,
) -> Result<X::Seen, Fail> {
    match pass.tills(ZERO) {
        Some(tills) => test.run(&mut tracker, tills, grants),
        None => Err(Fail::new("tills for the server")),
    }
}

/// The book of a lock that no thread shares any more is balanced.
fn balanced_book<S: Setup>(lock: TrackerLock<S>) -> TrackerBook<S>
    ensures { IsBalanced result }
{
    let book = lock.into_book();
    book_is_consistent(&book);
    book
}

fn seen_at_lock<S: Setup, R: Wait, X: TrackerTest<S>>(
    rt: &R,
    opened: Opened<S>,
    test: &X,
) -> Result<(X::Seen, Left), Fail> {
    let Opened {
        book,
        mut pass,
        desk,
        mut grants,
    } = opened;
    let lock = TrackerLock::new(book);
    let seen = run_at_lock(AtLock { rt, lock: &lock }, &mut pass, &mut grants, test);
    drop((desk, grants));
    with_left(seen, settle(balanced_book(lock), pass))
}

/// The book of a client whose list may have three entries.
pub(crate) fn open_small<S: Setup>(
    alloc: Global,
    mint: &mut Mint<S>,
    client: u32,
    counting: Counting,
) -> Result<Opened<S>, Fail> {
    open_book(alloc, mint, ClientId(client), (9, 3), counting)
}

/// What the test sees of a book in hand and of a book through its lock, each of client 1 and with a list of three entries, and
/// what they leave.
pub(crate) fn see_both<S: Setup, R: Wait, X: TrackerTest<S>>(
    rt: &R,
    alloc: Global,
    mint: &mut Mint<S>,
    counting: Counting,
    test: &X,
) -> Result<[(X::Seen, Left); 2], Fail> {
    let opened = open_small(alloc, mint, 1, counting)?;
    let in_hand = seen_in_hand(opened, test)?;
    let opened = open_small(alloc, mint, 1, counting)?;
    Ok([in_hand, seen_at_lock(rt, opened, test)?])
}
