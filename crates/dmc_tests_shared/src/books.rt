//! One request from its stamp to its response.
ghost use Rattle.std.specs.Prelude.{◌≡◌};

use dmc_book::book::QueueBook;
use dmc_book::pass::WorkerPass;
use dmc_book::status::Status;
use dmc_heap::adaptive_index::HeapIndexes;
use dmc_index::index::Indexes;
use dmc_ledger::bundle::StampTills;
use dmc_ledger::mint::{Blank, Mint};
use dmc_ledger::setup::Setup;
use dmc_tag::reply::{Reply, Tags};
use dmc_tag::tag::Tag;
use dmc_tests_setup::calls::{carried, must_enroll, pull, respond, stamp, status, submit};
use dmc_tests_setup::opening::{
    LONG, ONE, Opened, SEVEN, ZERO, drop_opened, open, open_book, open_desks, open_tracker,
    wait_config,
};
use dmc_tick::tick::TickTag;
use dmc_tlock::book::TrackerBook;
use dmc_tlock::fault::TillFault;
use dmc_tlock::pass::ClientPass;
use dmc_tlock::status::TrackStatus;
use dmc_types::config::PhaseType;
use dmc_types::cost::Cost;
use dmc_types::ids::Token;
use dmc_types::moment::Moment;
use std::alloc::Global;
use std::marker::Brand;
use std::test::Fail;

/// What a circle reports, from the registration to the second stamp.
#[derive(Clone, Copy, PartialEq, Eq)]
pub(crate) struct Observed {
    stamped: (u32, u32),
    tags: Tags<TickTag>,
    submitted: Status,
    granted: Reply<TickTag>,
    pulled: Status,
    next: (u32, u32),
    sent: (u64, u64),
    pending: (u64, u64),
    completions: (u64, u64),
}

/// What it has to report.
fn circle_observed() -> Observed {
    let submitted = Status {
        calls: 2,
        misses: 0,
        tokens: 9,
        grants: 0,
        granted: 0,
        cost: 0,
        clients: 1,
        requests: 1,
        events: 2,
        closed: false,
    };
    let zero = TickTag::of_moment(Moment::zero());
    Observed {
        stamped: (0, 0),
        tags: Tags {
            r: None,
            l: zero,
            p: zero,
        },
        submitted,
        granted: Reply::Granted {
            client: ONE,
            token: Token(9),
            phase: PhaseType::Priority,
            cost: Cost::ONE,
            beyond: false,
        },
        pulled: Status {
            calls: 3,
            grants: 1,
            granted: 9,
            cost: 1,
            requests: 0,
            events: 3,
            ..submitted
        },
        next: (1, 0),
        sent: (1, 0),
        pending: (0, 0),
        completions: (1, 0),
    }
}

/// The tracker's counts of server 0.
fn tracker_status<S: Setup>(
    tracker: &TrackerBook<S>,
    tills: &StampTills<S>,
) -> Result<TrackStatus, TillFault> {
    tracker.status(ZERO, tills)
}

fn circle_in_hand<I: Indexes<TickTag>, S: Setup>(
    book: &mut QueueBook<TickTag, I, S>,
    pass: &mut WorkerPass<S>,
    tracker: &mut TrackerBook<S>,
    tills: &mut StampTills<S>,
) -> Result<Observed, Fail> {
    must_enroll(book, pass)?;
    let (stamped, tags) = submit(book, pass, tracker, tills)?;
    let submitted = status(book, pass)?;
    let granted = pull(book, pass)?;
    let pulled = status(book, pass)?;
    respond(pass, tracker)?;
    let next = carried(&stamp(tracker, ZERO, tills)?);
    let tracked = tracker_status(tracker, tills)?;
    Ok(Observed {
        stamped,
        tags,
        submitted,
        granted,
        pulled,
        next,
        sent: tracked.sent,
        pending: tracked.pending,
        completions: tracked.completions,
    })
}

/// A circle of the books that were opened.
pub(crate) fn play<S: Setup>(opened: &mut Opened<S>) -> Result<Observed, Fail> {
    let Some(tills) = opened.tills.tills(ZERO) else {
        return Err(Fail::new("tills for the server"));
    };
    circle_in_hand(
        &mut opened.book,
        &mut opened.pass,
        &mut opened.tracker,
        tills,
    )
}

fn circle<S: Setup>(alloc: Global, blank: Blank) -> Result<Observed, Fail>
    requires { blank.name ≡ S.name }
{
    let mut mint = blank.open::<S>();
    let mut opened = open(alloc, &mut mint, 8)?;
    let observed = play(&mut opened);
    drop_opened(opened);
    observed
}

#[test]
fn one_circle(rt: HostRuntime) -> Result<(), Fail> {
    let observed = circle::<Brand>(rt.alloc(), Blank::new(14))?;
    assert_eq!(rt; observed.tags.r, None);
    assert!(rt; observed == circle_observed());
    Ok(())
}

/// A book over heaps of worker 7 and client 1, the worker's pass, and the client's tracker with its pass.
#[derive(Drop)]
struct OverHeaps<S: Setup> {
    book: QueueBook<TickTag, HeapIndexes, S>,
    passes: Vec<WorkerPass<S>>,
    tracker: TrackerBook<S>,
    tills: ClientPass<S>,
}

fn open_over_heaps<S: Setup>(alloc: Global, mint: &mut Mint<S>) -> Result<OverHeaps<S>, Fail> {
    let config = wait_config(LONG)?;
    let (desks, sides) = open_desks(alloc, mint)?;
    let (tracker, tills) = open_tracker(alloc, ONE, sides)?;
    let (book, passes) = open_book(alloc, config, ZERO, mint, desks, &[SEVEN], 8)?;
    Ok(OverHeaps {
        book,
        passes,
        tracker,
        tills,
    })
}

fn play_over_heaps<S: Setup>(opened: &mut OverHeaps<S>) -> Result<Observed, Fail> {
    let (Some(pass), Some(tills)) = (opened.passes.first_mut(), opened.tills.tills(ZERO)) else {
        return Err(Fail::new("a pass for the worker, and tills for the server"));
    };
    circle_in_hand(&mut opened.book, pass, &mut opened.tracker, tills)
}

fn circle_over_heaps<S: Setup>(alloc: Global, blank: Blank) -> Result<Observed, Fail>
    requires { blank.name ≡ S.name }
{
    let mut mint = blank.open::<S>();
    let mut opened = open_over_heaps(alloc, &mut mint)?;
    play_over_heaps(&mut opened)
}

#[test]
fn one_circle_over_heaps(rt: HostRuntime) -> Result<(), Fail> {
    let observed = circle_over_heaps::<Brand>(rt.alloc(), Blank::new(14))?;
    assert_eq!(rt; observed.tags.r, None);
    assert!(rt; observed == circle_observed());
    Ok(())
}
