//! One request from its stamp to its response, through both locks.
ghost use Rattle.std.specs.Prelude.{◌≡◌, sum_by};
ghost use Rattle.dmc_tag.specs.Replay.{replays};
ghost use Rattle.dmc_types.specs.declared.config.PhaseType.{PhaseType};
ghost use Rattle.dmc_book.specs.Counts.{count, costs_added, grants_added, phase_costs, phase_grants};

use crate::calls::{must_register, pull_or_wait, status, submit_stamped};
use crate::setup::{Client, Lock, grant_of_cost, open_one};
use dmc_book::laws::{grants_are_of_desks, history_replays};
use dmc_book::pass::WorkerPass;
use dmc_ledger::bundle::{PhaseTills, StampTills};
use dmc_ledger::mint::Blank;
use dmc_ledger::setup::Setup;
use dmc_ledger::unit::Unit;
use dmc_tag::reply::{Pulled, Tags};
use dmc_tag::tag::Tag;
use dmc_tests_setup::calls::{carried, take_unit};
use dmc_tests_setup::opening::{Book, ONE, ZERO, drop_book};
use dmc_tests_setup::tracker_calls::{AtLock, TrackerCalls};
use dmc_tick::tick::TickTag;
use dmc_tlock::lock::TrackerLock;
use dmc_tlock::pass::ClientPass;
use dmc_types::config::PhaseType;
use dmc_types::cost::Cost;
use dmc_types::ids::ServerId;
use dmc_types::moment::Moment;
use std::alloc::Global;
use std::marker::Brand;
use std::sync::Wait;
use std::test::Fail;

/// The book of a lock that no thread shares any more replays, and its desks' clients were granted all that was granted, in number
/// and in cost.
fn book_of<S: Setup>(lock: Lock<S>) -> Book<S>
    ensures replays { replays ⟦<TickTag as Tag>⟧.ops result.config result.history }
    ensures grants { (phase : PhaseType) →
        (sum_by (λ d. count (grants_added d.client phase) result.history) result.desks ≡ count (phase_grants phase) result.history)
        × (sum_by (λ d. count (costs_added d.client phase) result.history) result.desks ≡ count (phase_costs phase) result.history) }
{
    let book = lock.into_book();
    history_replays(&book);
    grants_are_of_desks(&book);
    book
}

/// The number of events in the lock's book.
fn events_of<S: Setup>(lock: Lock<S>) -> usize {
    let book = book_of(lock);
    let events = book.history().len();
    drop_book(book);
    events
}

/// The report of a request that is queued: the counts of its stamp, its tags, and the worker's calls, tokens and grants.
type Queued = ((u32, u32), Tags<TickTag>, (u64, u64, u64));

/// Stamps a request of this cost at the tracker, and submits it: the counts of the stamp, and the tags.
fn stamp_and_submit<S: Setup, R: Wait>(
    rt: &R,
    lock: &Lock<S>,
    pass: &mut WorkerPass<S>,
    tracker: &TrackerLock<S>,
    tills: &mut StampTills<S>,
    cost: Cost,
) -> Result<((u32, u32), Tags<TickTag>), Fail> {
    let stamp = tracker.stamp(rt, ZERO, cost, tills)?;
    let stamped = carried(&stamp);
    match submit_stamped(rt, lock, pass, tills, stamp, 9) {
        Ok(tags) => Ok((stamped, tags)),
        Err((_, cause)) => Err(cause.into()),
    }
}

/// Queues a request, and reads the worker's status.
fn queue_request<S: Setup, R: Wait>(
    rt: &R,
    lock: &Lock<S>,
    pass: &mut WorkerPass<S>,
    tracker: &TrackerLock<S>,
    tills: &mut StampTills<S>,
    cost: Cost,
) -> Result<Queued, Fail> {
    let (stamped, tags) = stamp_and_submit(rt, lock, pass, tracker, tills, cost)?;
    let status = status(rt, lock, pass)?;
    Ok((stamped, tags, (status.calls, status.tokens, status.grants)))
}

/// The worker's calls, its grants, their tokens and what they cost.
type Granted = (u64, u64, u64, u64);

/// A pull, and what the worker has then.
fn pull_request<S: Setup, R: Wait>(
    rt: &R,
    lock: &Lock<S>,
    pass: &mut WorkerPass<S>,
) -> Result<(Pulled, Granted), Fail> {
    let pulled = pull_or_wait(rt, lock, pass)?;
    let status = status(rt, lock, pass)?;
    let granted = (status.calls, status.grants, status.granted, status.cost);
    Ok((pulled, granted))
}

/// Returns the unit of a grant, which the tills hold, to the tracker.
fn give_unit<S: Setup, R: Wait>(
    rt: &R,
    tracker: &TrackerLock<S>,
    unit: Unit,
    tills: &mut PhaseTills<S>,
) -> Result<(), Fail> {
    if !tills.holds(unit.cost()) {
        return Err(Fail::new("a grant of this cost"));
    }
    match tracker.respond(rt, unit, tills) {
        Ok(()) => Ok(()),
        Err(fault) => Err(fault.cause.into()),
    }
}

/// Returns the unit of a grant to the tracker.
fn give_back<S: Setup, R: Wait>(
    rt: &R,
    pass: &mut WorkerPass<S>,
    tracker: &TrackerLock<S>,
) -> Result<(), Fail> {
    let unit = take_unit(pass)?;
    match pass.grant_tills(ONE, PhaseType::Priority) {
        Some(tills) => give_unit(rt, tracker, unit, tills),
        None => Err(Fail::new("tills of the client")),
    }
}

/// The counts of the next stamp, and what the tracker then has: sent, pending and completions.
type Next = ((u32, u32), (u64, u64), (u64, u64), (u64, u64));

fn next_stamp<S: Setup, R: Wait>(
    rt: &R,
    tracker: &TrackerLock<S>,
    tills: &mut StampTills<S>,
) -> Result<Next, Fail> {
    let mut tracker = AtLock { rt, lock: tracker };
    let stamped = tracker.try_stamp(ZERO, tills)?;
    let status = tracker.try_status(ZERO, tills)?;
    Ok((stamped, status.sent, status.pending, status.completions))
}

/// What a circle reports, step by step.
#[derive(Clone, Copy, Debug, PartialEq, Eq)]
struct Observed {
    queued: Queued,
    pulled: (Pulled, Granted),
    next: Next,
}

/// What it has to report of a request of this cost.
fn circle_observed(cost: Cost) -> Observed {
    let units = u64::from(cost.units());
    let zero = TickTag::of_moment(Moment::zero());
    let tags = Tags {
        r: None,
        l: zero,
        p: zero,
    };
    Observed {
        queued: ((0, 0), tags, (2, 9, 0)),
        pulled: (grant_of_cost(ONE, 9, cost), (3, 1, 9, units)),
        next: ((cost.units(), 0), (units, 0), (0, 0), (units, 0)),
    }
}

/// The circle of one request through both locks.
fn circle_at_locks<S: Setup, R: Wait>(
    rt: &R,
    lock: &Lock<S>,
    pass: &mut WorkerPass<S>,
    tracker: &TrackerLock<S>,
    tills: &mut StampTills<S>,
    cost: Cost,
) -> Result<Observed, Fail> {
    must_register(rt, lock, pass, ONE, None)?;
    let queued = queue_request(rt, lock, pass, tracker, tills, cost)?;
    let pulled = pull_request(rt, lock, pass)?;
    give_back(rt, pass, tracker)?;
    let next = next_stamp(rt, tracker, tills)?;
    Ok(Observed {
        queued,
        pulled,
        next,
    })
}

/// The circle, the server of the lock, and how many events its book has then.
fn circle<S: Setup, R: Wait>(
    rt: &R,
    alloc: Global,
    blank: Blank,
    cost: Cost,
) -> Result<(Observed, ServerId, usize), Fail>
    requires { blank.name ≡ S.name }
{
    let mut mint = blank.open::<S>();
    let (lock, mut pass, client) = open_one(alloc, &mut mint, 8)?;
    let observed = circle_of_client(rt, &lock, &mut pass, client, cost);
    drop(pass);
    let server = lock.server();
    let events = events_of(lock);
    Ok((observed?, server, events))
}

/// The circle with the client, whose tracker is behind its lock.
fn circle_of_client<S: Setup, R: Wait>(
    rt: &R,
    lock: &Lock<S>,
    pass: &mut WorkerPass<S>,
    client: Client<S>,
    cost: Cost,
) -> Result<Observed, Fail> {
    let Client {
        tracker,
        mut tills,
        ..
    } = client;
    let tracker = TrackerLock::new(tracker);
    let observed = circle_of(rt, lock, pass, &tracker, &mut tills, cost);
    drop((tracker, tills));
    observed
}

/// The circle with the client's pass.
fn circle_of<S: Setup, R: Wait>(
    rt: &R,
    lock: &Lock<S>,
    pass: &mut WorkerPass<S>,
    tracker: &TrackerLock<S>,
    tills: &mut ClientPass<S>,
    cost: Cost,
) -> Result<Observed, Fail> {
    match tills.tills(ZERO) {
        Some(tills) => circle_at_locks(rt, lock, pass, tracker, tills, cost),
        None => Err(Fail::new("tills for the server")),
    }
}

#[test]
fn one_circle(rt: HostRuntime) -> Result<(), Fail> {
    for units in [1, 4] {
        let (blank, cost) = (Blank::new(21), Cost::new(units)?);
        let answer = circle::<Brand, HostRuntime>(&rt, rt.alloc(), blank, cost)?;
        assert_eq!(rt; answer, (circle_observed(cost), ZERO, 3));
    }
    Ok(())
}
