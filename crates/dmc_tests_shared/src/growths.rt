//! Books that grow, with each allocation refused in turn: a call that reports an allocation failure leaves book and pass as they
//! were, and works when it is made again.
ghost use Rattle.std.specs.Prelude.{◌≡◌, IfErr, IfOk};
ghost use Rattle.dmc_ledger.specs.Bundles.{Covers, HoldsGrant, phase_holdings, stamp_holdings};

use crate::same::assert_same;
use dmc_book::fault::{NewFault, RunFault, SubmitCause, SubmitFault};
use dmc_book::pass::WorkerPass;
use dmc_book::status::Status;
use dmc_ledger::bundle::{PhaseTills, StampTills};
use dmc_ledger::mint::{Blank, Mint};
use dmc_ledger::setup::Setup;
use dmc_ledger::stamp::Stamp;
use dmc_ledger::unit::Unit;
use dmc_tag::reply::Reply;
use dmc_tests_setup::calls::{enroll, pull, stamp, status, take_unit};
use dmc_tests_setup::opening::{Book, ONE, Opened, ZERO, drop_opened, open_desks, open_seven};
use dmc_tests_setup::tracker_setup::open_tracker_of;
use dmc_tick::tick::TickTag;
use dmc_tlock::book::TrackerBook;
use dmc_tlock::fault::EntryFault;
use dmc_tlock::status::TrackStatus;
use dmc_types::config::{Counting, PhaseType};
use dmc_types::ids::Token;
use dmc_types::moment::Moment;
use std::alloc::Global;
use std::marker::Brand;
use std::process::Abort;
use std::test::Fail;

// How often a request is made and served. The lists keep 1,024 entries in a block, so that each grows twice.
const TURNS: u32 = 1_100;

// More events than the turns make.
const MOST: u32 = 4_000;

/// What a tracker shows of server 0.
fn tracked<S: Setup>(tracker: &TrackerBook<S>, tills: &StampTills<S>) -> Result<TrackStatus, Fail> {
    Ok(tracker.status(ZERO, tills)?)
}

/// Stamps a request. If that is refused for memory, tracker and tills are as they were, and it is stamped again.
fn stamp_again<S: Setup>(
    rt: &impl Abort,
    tracker: &mut TrackerBook<S>,
    tills: &mut StampTills<S>,
    failed: &mut bool,
) -> Result<Stamp, Fail>
    ensures { IfOk result (λ stamp. Covers (stamp_holdings tills.new) stamp.params) }
{
    let before = tracked(tracker, tills)?;
    match stamp(tracker, ZERO, tills) {
        Ok(stamp) => return Ok(stamp),
        Err(EntryFault::Memory) => *failed = true,
        Err(fault) => return Err(fault.into()),
    }
    assert!(rt; tracked(tracker, tills)? == before);
    Ok(stamp(tracker, ZERO, tills)?)
}

/// What a book shows, and how many events it keeps.
fn shown<S: Setup>(book: &Book<S>, pass: &WorkerPass<S>) -> Result<(Status, usize), Fail> {
    Ok((status(book, pass)?, book.history().len()))
}

/// Submits a stamped request.
fn submit<S: Setup>(
    book: &mut Book<S>,
    pass: &mut WorkerPass<S>,
    tills: &mut StampTills<S>,
    stamp: Stamp,
    token: Token,
) -> Result<(), SubmitFault>
    requires { Covers (stamp_holdings tills.old) stamp.params }
    ensures { IfErr result (λ fault. Covers (stamp_holdings tills.new) fault.stamp.params) }
{
    match book.submit(pass, tills, stamp, token, Moment::zero()) {
        Ok(_) => Ok(()),
        Err(fault) => Err(fault),
    }
}

/// Submits a stamped request. If that is refused for memory, book, pass and tills are as they were, and it is submitted again.
fn submit_again<S: Setup>(
    rt: &impl Abort,
    book: &mut Book<S>,
    pass: &mut WorkerPass<S>,
    tills: &mut StampTills<S>,
    stamp: Stamp,
    token: Token,
    failed: &mut bool,
) -> Result<(), Fail>
    requires { Covers (stamp_holdings tills.old) stamp.params }
{
    let before = shown(book, pass)?;
    let Err(fault) = submit(book, pass, tills, stamp, token) else {
        return Ok(());
    };
    if fault.cause != SubmitCause::Memory {
        return Err(fault.cause.into());
    }
    *failed = true;
    assert!(rt; shown(book, pass)? == before);
    match submit(book, pass, tills, fault.stamp, token) {
        Ok(()) => Ok(()),
        Err(fault) => Err(fault.cause.into()),
    }
}

/// Pulls a request. If that is refused for memory, book and pass are as they were, and it is pulled again.
fn pull_again<S: Setup>(
    rt: &impl Abort,
    book: &mut Book<S>,
    pass: &mut WorkerPass<S>,
    failed: &mut bool,
) -> Result<Reply<TickTag>, Fail> {
    let before = shown(book, pass)?;
    match pull(book, pass) {
        Ok(reply) => return Ok(reply),
        Err(RunFault::Memory) => *failed = true,
        Err(fault) => return Err(fault.into()),
    }
    assert!(rt; shown(book, pass)? == before);
    Ok(pull(book, pass)?)
}

/// Counts a completion. If that is refused for memory, the unit comes back and the tills are as they were, and it is counted
/// again.
fn respond_to<S: Setup>(
    tracker: &mut TrackerBook<S>,
    unit: Unit,
    tills: &mut PhaseTills<S>,
    failed: &mut bool,
) -> Result<(), Fail>
    requires { HoldsGrant (phase_holdings tills.old) unit.cost }
{
    let Err(fault) = tracker.respond(unit, tills) else {
        return Ok(());
    };
    if fault.cause != EntryFault::Memory {
        return Err(fault.cause.into());
    }
    *failed = true;
    match tracker.respond(fault.unit, tills) {
        Ok(()) => Ok(()),
        Err(fault) => Err(fault.cause.into()),
    }
}

/// Counts the completion of client 1's last grant.
fn respond_again<S: Setup>(
    tracker: &mut TrackerBook<S>,
    pass: &mut WorkerPass<S>,
    failed: &mut bool,
) -> Result<(), Fail> {
    let unit = take_unit(pass)?;
    match pass.grant_tills(ONE, PhaseType::Priority) {
        Some(tills) if tills.holds(unit.cost()) => respond_to(tracker, unit, tills, failed),
        _ => Err(Fail::new("a grant of the client")),
    }
}

/// One request, from its stamp to its response.
fn take_turn<S: Setup>(
    rt: &impl Abort,
    opened: &mut Opened<S>,
    token: Token,
    failed: &mut bool,
) -> Result<(), Fail> {
    let Opened {
        book,
        pass,
        tracker,
        tills,
    } = opened;
    let Some(tills) = tills.tills(ZERO) else {
        return Err(Fail::new("tills for the server"));
    };
    let stamp = stamp_again(rt, tracker, tills, failed)?;
    submit_again(rt, book, pass, tills, stamp, token, failed)?;
    pull_again(rt, book, pass, failed)?;
    respond_again(tracker, pass, failed)
}

/// The requests of all turns. Returns what the book shows, and whether an allocation failed.
fn grow<S: Setup>(rt: &impl Abort, opened: &mut Opened<S>) -> Result<(Status, bool), Fail> {
    let mut failed = false;
    match enroll(&mut opened.book, &mut opened.pass, ONE)? {
        None => {}
        Some(fault) => return Err(fault.into()),
    }
    for token in 0..TURNS {
        take_turn(rt, opened, Token(token), &mut failed)?;
    }
    Ok((status(&opened.book, &opened.pass)?, failed))
}

/// The books of client 1 and worker 7, whose lists may have `MOST` events.
fn open_growing<S: Setup>(alloc: Global, mint: &mut Mint<S>) -> Result<Opened<S>, Fail> {
    let (desks, sides) = open_desks(alloc, mint)?;
    let (tracker, tills) = open_tracker_of(alloc, ONE, sides, (1 << 20, MOST), Counting::All)?;
    let (book, pass) = open_seven(alloc, mint, desks, MOST)?;
    Ok(Opened {
        book,
        pass,
        tracker,
        tills,
    })
}

fn grown<S: Setup>(rt: &impl Abort, alloc: Global, blank: Blank) -> Result<(Status, bool), Fail>
    requires { blank.name ≡ S.name }
{
    let mut mint = blank.open::<S>();
    let mut opened = open_growing(alloc, &mut mint)?;
    let grown = grow(rt, &mut opened);
    drop_opened(opened);
    grown
}

#[test]
fn grown_books(rt: HostRuntime) -> Result<(), Fail> {
    let (status, failed) = grown::<Brand>(&rt, rt.alloc(), Blank::new(14))?;
    let calls = u64::from(2 * TURNS + 1);
    assert_same(&rt, &(status.calls, status.events), &(calls, calls));
    assert_same(
        &rt,
        &(status.grants, status.requests),
        &(u64::from(TURNS), 0),
    );
    if failed {
        return Err(NewFault::Memory.into());
    }
    Ok(())
}
