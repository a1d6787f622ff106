//! The refusals of a full queue, of a closed one, of another book's pass, of two workers of one number, and of another client's
//! tills.
ghost use Rattle.std.specs.Prelude.{◌≡◌, IsTrue};
ghost use Rattle.dmc_ledger.specs.Bundles.{Covers, stamp_holdings};

use crate::calls::{
    Stop, close, must_register, pull, pull_or_wait, run_register, status, submit, submit_stamped,
};
use crate::same::assert_same;
use crate::setup::{
    Client, Clients, Lock, Opened, drop_lock, grant, open, open_clients, open_lock, open_one,
    open_other,
};
use dmc_book::fault::{NewFault, RunFault, SubmitCause};
use dmc_book::pass::WorkerPass;
use dmc_ledger::bundle::StampTills;
use dmc_ledger::mint::Blank;
use dmc_ledger::setup::Setup;
use dmc_ledger::stamp::Stamp;
use dmc_qlock::fault::RunOrRange;
use dmc_tag::reply::Pulled;
use dmc_tests_setup::opening::{LONG, ONE, ZERO, wait_config};
use dmc_tests_setup::tracker_calls::{AtLock, TrackerCalls};
use dmc_tlock::fault::EntryFault;
use dmc_tlock::lock::TrackerLock;
use dmc_tlock::pass::ClientPass;
use dmc_types::cost::Cost;
use dmc_types::ids::{ClientId, WorkerId};
use std::alloc::Global;
use std::marker::Brand;
use std::sync::Wait;
use std::test::Fail;

/// The report of a full queue: that a client has no desk, the results of two pulls, and events, calls and misses.
type Full = (
    Option<RunFault>,
    (Pulled, Option<RunOrRange>),
    (u64, u64, u64),
);

/// The results of two pulls, of which the second has to be refused.
fn pull_twice<S: Setup, R: Wait>(
    rt: &R,
    lock: &Lock<S>,
    pass: &mut WorkerPass<S>,
) -> Result<(Pulled, Option<RunOrRange>), RunOrRange> {
    let first = pull(rt, lock, pass)?;
    Ok((first, pull(rt, lock, pass).err()))
}

fn full_observed<S: Setup, R: Wait>(
    rt: &R,
    lock: &Lock<S>,
    pass: &mut WorkerPass<S>,
) -> Result<Full, Fail> {
    let no_desk = run_register(rt, lock, pass, ClientId(3), None)?;
    must_register(rt, lock, pass, ONE, None)?;
    let pulls = pull_twice(rt, lock, pass)?;
    let status = status(rt, lock, pass)?;
    Ok((no_desk, pulls, (status.events, status.calls, status.misses)))
}

fn full<S: Setup, R: Wait>(rt: &R, alloc: Global, blank: Blank) -> Result<Full, Fail>
    requires { blank.name ≡ S.name }
{
    let mut mint = blank.open::<S>();
    let (lock, mut pass, client) = open_one(alloc, &mut mint, 2)?;
    let observed = full_observed(rt, &lock, &mut pass);
    drop((pass, client));
    drop_lock(lock);
    observed
}

/// The report of a closed queue: a submit, and two pulls that might wait.
type Closed = (Option<Stop>, (Pulled, Pulled));

/// The result of a submit that follows on an accepted one and a close.
fn submit_once_closed<S: Setup, R: Wait>(
    rt: &R,
    lock: &Lock<S>,
    pass: &mut WorkerPass<S>,
    client: &mut Client<S>,
) -> Result<Option<Stop>, Stop> {
    submit(rt, lock, pass, client, 9)?;
    close(rt, lock);
    Ok(submit(rt, lock, pass, client, 10).err())
}

fn wait_twice<S: Setup, R: Wait>(
    rt: &R,
    lock: &Lock<S>,
    pass: &mut WorkerPass<S>,
) -> Result<(Pulled, Pulled), RunOrRange> {
    let first = pull_or_wait(rt, lock, pass)?;
    let second = pull_or_wait(rt, lock, pass)?;
    Ok((first, second))
}

fn closed_observed<S: Setup, R: Wait>(
    rt: &R,
    lock: &Lock<S>,
    pass: &mut WorkerPass<S>,
    client: &mut Client<S>,
) -> Result<Closed, Fail> {
    must_register(rt, lock, pass, ONE, None)?;
    let refused = submit_once_closed(rt, lock, pass, client)?;
    let pulls = wait_twice(rt, lock, pass)?;
    Ok((refused, pulls))
}

fn closed<S: Setup, R: Wait>(rt: &R, alloc: Global, blank: Blank) -> Result<Closed, Fail>
    requires { blank.name ≡ S.name }
{
    let mut mint = blank.open::<S>();
    let (lock, mut pass, mut client) = open_one(alloc, &mut mint, 8)?;
    let observed = closed_observed(rt, &lock, &mut pass, &mut client);
    drop((pass, client));
    drop_lock(lock);
    observed
}

/// The refusal of another book's pass.
type Strange = (
    Option<RunFault>,
    Option<RunOrRange>,
    Option<RunFault>,
    Option<Stop>,
);

/// The refusal of a submit. A stamp that cannot be made ends the test.
fn submit_refused<S: Setup, R: Wait>(
    rt: &R,
    lock: &Lock<S>,
    pass: &mut WorkerPass<S>,
    client: &mut Client<S>,
) -> Result<Option<Stop>, Stop> {
    match submit(rt, lock, pass, client, 9) {
        Ok(_) => Ok(None),
        Err(Stop::Submit(cause)) => Ok(Some(Stop::Submit(cause))),
        Err(stop) => Err(stop),
    }
}

fn strange_observed<S: Setup, R: Wait>(
    rt: &R,
    lock: &Lock<S>,
    pass: &mut WorkerPass<S>,
    client: &mut Client<S>,
) -> Result<Strange, Fail> {
    let ran = run_register(rt, lock, pass, ONE, None)?;
    let pulled = pull(rt, lock, pass).err();
    let seen = status(rt, lock, pass).err();
    let submitted = submit_refused(rt, lock, pass, client)?;
    Ok((ran, pulled, seen, submitted))
}

fn strange<S: Setup, R: Wait>(rt: &R, alloc: Global, blank: Blank) -> Result<Strange, Fail>
    requires { blank.name ≡ S.name }
{
    let mut mint = blank.open::<S>();
    let mut other = open_other(alloc, &mut mint)?;
    let (lock, pass, mut client) = open_one(alloc, &mut mint, 8)?;
    let observed = strange_observed(rt, &lock, &mut other, &mut client);
    drop((pass, client));
    drop_lock(lock);
    observed
}

/// Two workers of one number are refused.
fn twice<S: Setup>(alloc: Global, blank: Blank) -> Result<Option<NewFault>, Fail>
    requires { blank.name ≡ S.name }
{
    let mut mint = blank.open::<S>();
    let config = wait_config(LONG)?;
    let Clients { desks, one, two } = open_clients(alloc, &mut mint)?;
    drop((one, two));
    let workers = [WorkerId(7), WorkerId(7)];
    match open_lock(alloc, config, &mut mint, desks, &workers, 8) {
        Ok((lock, passes)) => {
            drop(passes);
            drop_lock(lock);
            Ok(None)
        }
        Err(NewFault::Memory) => Err(NewFault::Memory.into()),
        Err(cause) => Ok(Some(cause)),
    }
}

/// Whether the tills hold a stamp with the counts of this one.
fn covers<S: Setup>(tills: &StampTills<S>, stamp: &Stamp) -> bool
    ensures { IsTrue result → Covers (stamp_holdings tills.now) stamp.now.params }
{
    tills.stamps.amount() > 0
        && u64::from(stamp.params().delta()) <= tills.delta.amount()
        && u64::from(stamp.params().rho()) <= tills.rho.amount()
}

/// Submits a stamp of client 1 with the tills of client 2, which hold a stamp too. Returns whose stamp comes back, and the cause.
fn submit_with<S: Setup, R: Wait>(
    rt: &R,
    lock: &Lock<S>,
    pass: &mut WorkerPass<S>,
    stamp: Stamp,
    tills: &mut StampTills<S>,
) -> Result<(ClientId, SubmitCause), Fail> {
    if !covers(tills, &stamp) {
        return Err(Fail::new("a stamp in the tills"));
    }
    match submit_stamped(rt, lock, pass, tills, stamp, 9) {
        Ok(_) => Err(Fail::new("a refusal")),
        Err(refused) => Ok(refused),
    }
}

/// Submits a stamp of client 1, made at the lock of its tracker, with the tills of client 2.
fn submit_own<S: Setup, R: Wait>(
    rt: &R,
    lock: &Lock<S>,
    pass: &mut WorkerPass<S>,
    one: &TrackerLock<S>,
    own: &mut StampTills<S>,
    others: &mut StampTills<S>,
) -> Result<(ClientId, SubmitCause), Fail> {
    let stamp = one.stamp(rt, ZERO, Cost::ONE, own)?;
    submit_with(rt, lock, pass, stamp, others)
}

/// The refusals of the tills of client 2, by the lock of client 1's tracker and by the queue's lock.
type Others = (Option<EntryFault>, (ClientId, SubmitCause));

fn others_observed<S: Setup, R: Wait>(
    rt: &R,
    lock: &Lock<S>,
    pass: &mut WorkerPass<S>,
    one: &TrackerLock<S>,
    tills: &mut ClientPass<S>,
    two: &mut Client<S>,
) -> Result<Others, Fail> {
    let (Some(own), Some(others)) = (tills.tills(ZERO), two.tills.tills(ZERO)) else {
        return Err(Fail::new("tills for the server"));
    };
    let refused = AtLock { rt, lock: one }.try_stamp(ZERO, others).err();
    two.tracker.try_stamp(ZERO, others)?;
    Ok((refused, submit_own(rt, lock, pass, one, own, others)?))
}

/// The refusals of the tills of client 2 with client 1, whose tracker is behind its lock.
fn others_locked<S: Setup, R: Wait>(
    rt: &R,
    lock: &Lock<S>,
    passes: &mut [WorkerPass<S>],
    one: Client<S>,
    two: &mut Client<S>,
) -> Result<Others, Fail> {
    let Client {
        tracker,
        mut tills,
        ..
    } = one;
    let one = TrackerLock::new(tracker);
    let observed = match passes.first_mut() {
        Some(pass) => others_observed(rt, lock, pass, &one, &mut tills, two),
        None => Err(Fail::new("a pass for the worker")),
    };
    drop((one, tills));
    observed
}

/// The refusals of the tills of client 2 with the lock and the clients that were opened.
fn others_opened<S: Setup, R: Wait>(rt: &R, opened: Opened<S>) -> Result<Others, Fail> {
    let Opened {
        lock,
        one,
        mut two,
        mut passes,
    } = opened;
    let observed = others_locked(rt, &lock, &mut passes, one, &mut two);
    drop((two, passes));
    drop_lock(lock);
    observed
}

fn others<S: Setup, R: Wait>(rt: &R, alloc: Global, blank: Blank) -> Result<Others, Fail>
    requires { blank.name ≡ S.name }
{
    let mut mint = blank.open::<S>();
    let opened = open(alloc, &mut mint, &[WorkerId(7)], 8)?;
    others_opened(rt, opened)
}

#[test]
fn full_closed_stranger(rt: HostRuntime) -> Result<(), Fail> {
    let answer = full::<Brand, HostRuntime>(&rt, rt.alloc(), Blank::new(21))?;
    let no_room = RunOrRange::Run(RunFault::HistoryFull);
    let wanted = (
        Some(RunFault::NoDesk),
        (Pulled::Nothing, Some(no_room)),
        (2, 2, 1),
    );
    assert_same(&rt, &answer, &wanted);
    let answer = closed::<Brand, HostRuntime>(&rt, rt.alloc(), Blank::new(21))?;
    let refused = Some(Stop::Submit(SubmitCause::Closed));
    let pulls = (grant(ONE, 9), Pulled::Nothing);
    assert_same(&rt, &answer, &(refused, pulls));
    let answer = strange::<Brand, HostRuntime>(&rt, rt.alloc(), Blank::new(42))?;
    let stranger = Some(RunFault::Stranger);
    let pulled = Some(RunOrRange::Run(RunFault::Stranger));
    let submitted = Some(Stop::Submit(SubmitCause::Stranger));
    assert_same(&rt, &answer, &(stranger, pulled, stranger, submitted));
    let answer = twice::<Brand>(rt.alloc(), Blank::new(27))?;
    assert_same(&rt, &answer, &Some(NewFault::Twice));
    let answer = others::<Brand, HostRuntime>(&rt, rt.alloc(), Blank::new(21))?;
    let refused = (ONE, SubmitCause::Stranger);
    assert_same(&rt, &answer, &(Some(EntryFault::Stranger), refused));
    Ok(())
}
