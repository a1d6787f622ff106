//! Tests of a tracker's book, in one hand and behind its lock.
ghost use Rattle.std.specs.Prelude.{◌≡◌};

use crate::same::assert_same;
use crate::tracker_tests::{Left, TrackerTest, see_both};
use dmc_ledger::bundle::{PhaseTills, StampTills};
use dmc_ledger::desk::ClientDesk;
use dmc_ledger::mint::Blank;
use dmc_ledger::setup::Setup;
use dmc_tests_setup::opening::ZERO;
use dmc_tests_setup::tracker_calls::{AtLock, TrackerCalls};
use dmc_tests_setup::tracker_setup::{Opened, TIMES, grants_of, open_book};
use dmc_tlock::fault::EntryFault;
use dmc_tlock::lock::TrackerLock;
use dmc_tlock::pass::ClientPass;
use dmc_tlock::status::TrackStatus;
use dmc_types::config::Counting;
use dmc_types::cost::Cost;
use dmc_types::ids::ClientId;
use std::alloc::Global;
use std::marker::Brand;
use std::sync::Wait;
use std::test::Fail;
use std::thread;
use std::thread::Threads;

/// The results of stamp, respond, stamp, status and one stamp too many.
#[derive(Clone, Copy, Debug, PartialEq, Eq)]
struct Observed {
    first: (u32, u32),
    next: (u32, u32),
    status: TrackStatus,
    refused: Option<EntryFault>,
}

/// What is seen of requests of cost 1, and of one of cost 5 and one of cost 3.
const EXPECTED: [(u32, u32, Observed); 4] = [
    (
        1,
        1,
        Observed {
            first: (0, 0),
            next: (1, 0),
            status: TrackStatus {
                sent: (1, 0),
                skipped: (0, 0),
                pending: (0, 0),
                completions: (1, 0),
                counting: Counting::All,
                stamps: 2,
                own: 0,
                others: (0, 0),
            },
            refused: Some(EntryFault::HistoryFull),
        },
    ),
    (
        1,
        1,
        Observed {
            first: (1, 1),
            next: (1, 1),
            status: TrackStatus {
                sent: (2, 2),
                skipped: (0, 0),
                pending: (0, 0),
                completions: (1, 0),
                counting: Counting::Others,
                stamps: 2,
                own: 2,
                others: (0, 0),
            },
            refused: Some(EntryFault::HistoryFull),
        },
    ),
    (
        5,
        3,
        Observed {
            first: (0, 0),
            next: (5, 0),
            status: TrackStatus {
                sent: (5, 0),
                skipped: (0, 0),
                pending: (0, 0),
                completions: (5, 0),
                counting: Counting::All,
                stamps: 2,
                own: 0,
                others: (0, 0),
            },
            refused: Some(EntryFault::HistoryFull),
        },
    ),
    (
        5,
        3,
        Observed {
            first: (5, 5),
            next: (3, 3),
            status: TrackStatus {
                sent: (8, 8),
                skipped: (0, 0),
                pending: (0, 0),
                completions: (5, 0),
                counting: Counting::Others,
                stamps: 2,
                own: 8,
                others: (0, 0),
            },
            refused: Some(EntryFault::HistoryFull),
        },
    ),
];

/// Stamps, responds, stamps again, and stamps once too often. These are the costs of the first two requests.
#[derive(Drop)]
struct CircleTest {
    first: Cost,
    next: Cost,
}

impl<S: Setup> TrackerTest<S> for CircleTest {
    type Seen = Observed;

    fn run<C: TrackerCalls<S>>(
        &self,
        tracker: &mut C,
        tills: &mut StampTills<S>,
        grants: &mut PhaseTills<S>,
    ) -> Result<Observed, Fail> {
        let first = tracker.try_stamp_of_cost(ZERO, self.first, tills)?;
        tracker.try_respond_of_cost(ZERO, self.first, grants)?;
        let next = tracker.try_stamp_of_cost(ZERO, self.next, tills)?;
        let status = tracker.try_status(ZERO, tills)?;
        let refused = tracker.try_stamp(ZERO, tills).err();
        Ok(Observed {
            first,
            next,
            status,
            refused,
        })
    }
}

fn circles<S: Setup, R: Wait>(
    rt: &R,
    alloc: Global,
    blank: Blank,
    counting: Counting,
    test: &CircleTest,
) -> Result<[(Observed, Left); 2], Fail>
    requires { blank.name ≡ S.name }
{
    let mut mint = blank.open::<S>();
    see_both(rt, alloc, &mut mint, counting, test)
}

#[test]
fn one_circle(rt: HostRuntime) -> Result<(), Fail> {
    for (first, next, observed) in EXPECTED {
        let counting = observed.status.counting;
        let blank = Blank::new(14);
        let test = CircleTest {
            first: Cost::new(first)?,
            next: Cost::new(next)?,
        };
        let seen = circles::<Brand, HostRuntime>(&rt, rt.alloc(), blank, counting, &test)?;
        let (delta, rho) = observed.status.sent;
        let left = Left {
            released: 0,
            entries: 3,
            held: (2, delta, rho),
        };
        assert_same(&rt, &seen, &[(observed, left); 2]);
    }
    Ok(())
}

/// Stamps and responds in turn.
fn work<S: Setup, R: Wait>(
    mut tracker: AtLock<'_, S, R>,
    tills: &mut StampTills<S>,
    grants: &mut PhaseTills<S>,
) -> Result<(), EntryFault> {
    for _ in 0..TIMES {
        tracker.try_stamp(ZERO, tills)?;
        tracker.try_respond(ZERO, grants)?;
    }
    Ok(())
}

/// Stamps and responds in turn, with the client's pass.
fn work_with_pass<S: Setup, R: Wait>(
    tracker: AtLock<'_, S, R>,
    pass: &mut ClientPass<S>,
    grants: &mut PhaseTills<S>,
) -> Result<(), EntryFault> {
    match pass.tills(ZERO) {
        Some(tills) => work(tracker, tills, grants),
        None => Err(EntryFault::NoServer),
    }
}

/// Two threads share a lock: one with the client's pass, one with the queue's tills of the same books.
fn work_at_once<S: Setup + Send + Sync, R: Threads + Wait + Sync>(
    rt: &R,
    lock: &TrackerLock<S>,
    pass: &mut ClientPass<S>,
    grants: &mut PhaseTills<S>,
    held: &mut StampTills<S>,
    more: &mut PhaseTills<S>,
) -> Result<(), EntryFault> {
    let (one, two) = thread::join(
        rt,
        move || work_with_pass(AtLock { rt, lock }, pass, grants),
        move || work(AtLock { rt, lock }, held, more),
    );
    one?;
    two
}

/// The report after the joins.
fn observed_after<S: Setup + Send + Sync, R: Threads + Wait + Sync>(
    rt: &R,
    lock: &TrackerLock<S>,
    pass: &mut ClientPass<S>,
    grants: &mut PhaseTills<S>,
    desk: &mut ClientDesk<S>,
) -> Result<TrackStatus, Fail> {
    let mut more = grants_of(desk, TIMES)?;
    let worked = work_at_once(rt, lock, pass, grants, &mut desk.held, &mut more);
    drop(more);
    worked?;
    Ok(AtLock { rt, lock }.try_status(ZERO, &desk.held)?)
}

/// Two threads share the lock of the book that was opened.
fn share_opened<S: Setup + Send + Sync, R: Threads + Wait + Sync>(
    rt: &R,
    opened: Opened<S>,
) -> Result<TrackStatus, Fail> {
    let Opened {
        book,
        mut pass,
        mut desk,
        mut grants,
    } = opened;
    let lock = TrackerLock::new(book);
    let observed = observed_after(rt, &lock, &mut pass, &mut grants, &mut desk);
    drop((lock, pass, grants, desk));
    observed
}

/// Two threads share a lock. Returns the report after the joins.
fn shared<S: Setup + Send + Sync, R: Threads + Wait + Sync>(
    rt: &R,
    alloc: Global,
    blank: Blank,
    counting: Counting,
) -> Result<TrackStatus, Fail>
    requires { blank.name ≡ S.name }
{
    let mut mint = blank.open::<S>();
    let opened = open_book(alloc, &mut mint, ClientId(1), (9999, 9999), counting)?;
    share_opened(rt, opened)
}

#[test]
fn two_threads_at_a_lock(rt: HostRuntime) -> Result<(), Fail> {
    for (counting, (all, constraint)) in [
        (Counting::All, (2000, 0)),
        (Counting::Others, (2000, 2000)),
    ] {
        let status = shared::<Brand, HostRuntime>(&rt, rt.alloc(), Blank::new(7), counting)?;
        let counted = (status.stamps, status.completions);
        assert_same(&rt, &counted, &(2000, (2000, 0)));
        let (sent, pending) = (status.sent, status.pending);
        assert_same(&rt, &sent.0.checked_add(pending.0), &Some(all));
        assert_same(&rt, &sent.1.checked_add(pending.1), &Some(constraint));
    }
    Ok(())
}
