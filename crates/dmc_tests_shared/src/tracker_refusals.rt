//! Refusals: of another client's tills and pass, of a server that the tracker does not have, of a full list, and of a limit.
ghost use Rattle.std.specs.Prelude.{◌≡◌, map};
ghost use Rattle.dmc_ledger.specs.Bundles.{server_side};
ghost use Rattle.dmc_tlock.specs.Opening.{AreNew};

use crate::same::assert_same;
use dmc_ledger::bundle::{PhaseTills, StampTills};
use dmc_ledger::desk::ServerDesk;
use dmc_ledger::mint::{Blank, Mint};
use dmc_ledger::setup::Setup;
use dmc_tests_setup::opening::ZERO;
use dmc_tests_setup::tracker_calls::{AtLock, TrackerCalls, unit_of, without_unit};
use dmc_tests_setup::tracker_setup::{Opened, open_book, open_desks};
use dmc_tlock::book::TrackerBook;
use dmc_tlock::fault::{EntryFault, TillFault};
use dmc_tlock::lock::TrackerLock;
use dmc_tlock::pass::ClientPass;
use dmc_tracker::tracker::MakeFault;
use dmc_types::config::{Counting, PhaseType};
use dmc_types::cost::Cost;
use dmc_types::ids::{ClientId, ServerId};
use std::alloc::Global;
use std::marker::Brand;
use std::process::Abort;
use std::sync::Wait;
use std::test::Fail;

const ONE: ServerId = ServerId(1);

/// The refusals of stamp, status and respond.
type Refused = (Option<EntryFault>, Option<TillFault>, Option<EntryFault>);

fn refused_by<S: Setup, C: TrackerCalls<S>>(
    tracker: &mut C,
    server: ServerId,
    tills: &mut StampTills<S>,
    grants: &mut PhaseTills<S>,
) -> Refused {
    let stamped = tracker.try_stamp(server, tills).err();
    let seen = tracker.try_status(server, tills).err();
    let responded = tracker.try_respond(server, grants).err();
    (stamped, seen, responded)
}

/// The result of each call at server 0 with another client's tills, and at a server that the tracker does not have.
const STRANGERS: [(ServerId, Refused); 2] = [
    (
        ZERO,
        (
            Some(EntryFault::Stranger),
            Some(TillFault::Stranger),
            Some(EntryFault::Stranger),
        ),
    ),
    (
        ONE,
        (
            Some(EntryFault::NoServer),
            Some(TillFault::NoServer),
            Some(EntryFault::NoServer),
        ),
    ),
];

/// The tracker refuses another client's tills, and a server that it does not have.
fn assert_refused<S: Setup, C: TrackerCalls<S>>(
    rt: &impl Abort,
    tracker: &mut C,
    tills: &mut StampTills<S>,
    grants: &mut PhaseTills<S>,
) {
    for (server, refused) in STRANGERS {
        assert!(rt; grants.holds(Cost::ONE));
        let answers = refused_by(tracker, server, tills, grants);
        assert_same(rt, &answers, &refused);
    }
}

/// Stamps twice. Returns the refusal of the second stamp, if it is refused.
fn stamp_twice<S: Setup, C: TrackerCalls<S>>(
    tracker: &mut C,
    tills: &mut StampTills<S>,
) -> Result<Option<EntryFault>, EntryFault> {
    tracker.try_stamp(ZERO, tills)?;
    Ok(tracker.try_stamp(ZERO, tills).err())
}

/// The refusals in hand and through the lock are the same. Returns the result of a second stamp if the list has room for one.
fn refuse_other<S: Setup, R: Abort + Wait>(
    rt: &R,
    own: Opened<S>,
    other: &mut Opened<S>,
) -> Result<Option<EntryFault>, EntryFault> {
    let Opened {
        mut book,
        pass,
        mut desk,
        grants: own_grants,
    } = own;
    drop((pass, own_grants));
    let (tills, grants) = (&mut other.desk.held, &mut other.grants);
    assert_refused(rt, &mut book, tills, grants);
    let lock = TrackerLock::new(book);
    let mut tracker = AtLock { rt, lock: &lock };
    assert_refused(rt, &mut tracker, tills, grants);
    let refused = stamp_twice(&mut tracker, &mut desk.held);
    drop((lock, desk));
    refused
}

/// The books of clients 1 and 2. The list of client 1 may carry `most` stamps of a kind.
fn open_both<S: Setup>(
    alloc: Global,
    mint: &mut Mint<S>,
    most: u64,
    counting: Counting,
) -> Result<(Opened<S>, Opened<S>), Fail> {
    let own = open_book(alloc, mint, ClientId(1), (most, 9), counting)?;
    match open_book(alloc, mint, ClientId(2), (9, 9), counting) {
        Ok(other) => Ok((own, other)),
        Err(fail) => {
            drop(own);
            Err(fail)
        }
    }
}

fn strangers<S: Setup, R: Abort + Wait>(
    rt: &R,
    alloc: Global,
    blank: Blank,
    counting: Counting,
) -> Result<Option<EntryFault>, Fail>
    requires { blank.name ≡ S.name }
{
    let mut mint = blank.open::<S>();
    let (own, mut other) = open_both(alloc, &mut mint, 1, counting)?;
    let refused = refuse_other(rt, own, &mut other);
    drop(other);
    Ok(refused?)
}

/// A book and another's pass, which come back.
fn handed_back<S: Setup>(
    rt: &impl Abort,
    book: TrackerBook<S>,
    pass: ClientPass<S>,
) -> (TrackerBook<S>, ClientPass<S>) {
    match book.settle(pass) {
        Ok(_) => panic!(rt; "another's pass"),
        Err(back) => (back.book, back.pass),
    }
}

/// Whether the book settles with the pass.
fn settles<S: Setup>(book: TrackerBook<S>, pass: ClientPass<S>) -> bool {
    let settled = book.settle(pass);
    let is_settled = settled.is_ok();
    drop(settled);
    is_settled
}

/// The book and its pass alone.
fn book_and_pass<S: Setup>(opened: Opened<S>) -> (TrackerBook<S>, ClientPass<S>) {
    let Opened {
        book,
        pass,
        desk,
        grants,
    } = opened;
    drop((desk, grants));
    (book, pass)
}

/// Another's pass comes back with the book, and each book settles with its own.
fn swap_passes<S: Setup>(rt: &impl Abort, own: Opened<S>, other: Opened<S>) {
    let (book, pass) = book_and_pass(own);
    let (other_book, other_pass) = book_and_pass(other);
    let (book, other_pass) = handed_back(rt, book, other_pass);
    assert!(rt; settles(book, pass));
    assert!(rt; settles(other_book, other_pass));
}

fn passes<S: Setup>(rt: &impl Abort, alloc: Global, blank: Blank) -> Result<(), Fail>
    requires { blank.name ≡ S.name }
{
    let mut mint = blank.open::<S>();
    let (own, other) = open_both(alloc, &mut mint, 9, Counting::All)?;
    swap_passes(rt, own, other);
    Ok(())
}

#[test]
fn full_closed_stranger(rt: HostRuntime) -> Result<(), Fail> {
    for (counting, full) in [
        (Counting::All, None),
        (Counting::Others, Some(EntryFault::TrackFull)),
    ] {
        let blank = Blank::new(14);
        let refused = strangers::<Brand, HostRuntime>(&rt, rt.alloc(), blank, counting)?;
        assert_same(&rt, &refused, &full);
    }
    passes::<Brand>(&rt, rt.alloc(), Blank::new(14))?;
    Ok(())
}

/// The results of a response to a grant of a client in a phase, with the grants of client 1 in phase Priority.
const UNITS: [(ClientId, PhaseType, Option<EntryFault>); 3] = [
    (ClientId(2), PhaseType::Priority, Some(EntryFault::Stranger)),
    (
        ClientId(1),
        PhaseType::Reservation,
        Some(EntryFault::Stranger),
    ),
    (ClientId(1), PhaseType::Priority, None),
];

/// The answer to a response for a grant of a client in a phase, with these grants. An allocation failure is an error.
fn respond_as<S: Setup>(
    book: &mut TrackerBook<S>,
    client: ClientId,
    phase: PhaseType,
    grants: &mut PhaseTills<S>,
) -> Result<Option<EntryFault>, Fail> {
    let Some(unit) = unit_of(client, ZERO, phase, Cost::ONE, grants) else {
        return Err(Fail::new("a grant of cost 1"));
    };
    match without_unit(book.respond(unit, grants)) {
        Err(EntryFault::Memory) => Err(EntryFault::Memory.into()),
        answer => Ok(answer.err()),
    }
}

/// Units of another client and of another phase are refused.
fn refuse_units<S: Setup>(
    rt: &impl Abort,
    book: &mut TrackerBook<S>,
    grants: &mut PhaseTills<S>,
) -> Result<(), Fail> {
    for (client, phase, refused) in UNITS {
        assert_same(rt, &respond_as(book, client, phase, grants)?, &refused);
    }
    Ok(())
}

fn units<S: Setup>(rt: &impl Abort, alloc: Global, blank: Blank) -> Result<(), Fail>
    requires { blank.name ≡ S.name }
{
    let mut mint = blank.open::<S>();
    let mut opened = open_book(alloc, &mut mint, ClientId(1), (9, 9), Counting::All)?;
    let refused = refuse_units(rt, &mut opened.book, &mut opened.grants);
    drop(opened);
    refused
}

#[test]
fn units_of_others(rt: HostRuntime) -> Result<(), Fail> {
    units::<Brand>(&rt, rt.alloc(), Blank::new(7))?;
    Ok(())
}

/// The refusals of a tracker that may send nothing, and how many desks come back.
fn refused_limit<S: Setup>(
    rt: &impl Abort,
    alloc: Global,
    desks: Vec<ServerDesk<S>>,
) -> (MakeFault, usize)
    requires { AreNew 1 (map server_side desks.items) }
{
    match TrackerBook::new(alloc, ClientId(1), desks, 0, 1, Counting::All) {
        Ok(_) => panic!(rt; "a limit"),
        Err(fault) => (fault.cause, fault.desks.len()),
    }
}

/// The desks that a refusal at a limit returns.
fn limit<S: Setup>(rt: &impl Abort, alloc: Global, blank: Blank) -> Result<(), Fail>
    requires { blank.name ≡ S.name }
{
    let mut mint = blank.open::<S>();
    let (_desk, desks) = open_desks(alloc, &mut mint, ClientId(1))?;
    let refused = refused_limit(rt, alloc, desks);
    assert_same(rt, &refused, &(MakeFault::Limit, 1));
    Ok(())
}

#[test]
fn make_limits(rt: HostRuntime) -> Result<(), Fail> {
    limit::<Brand>(&rt, rt.alloc(), Blank::new(7))?;
    Ok(())
}
