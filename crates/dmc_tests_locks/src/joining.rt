//! Clients and workers that come later, and workers that leave.
ghost use Rattle.std.specs.Prelude.{◌≡◌};

use crate::calls::{close, must_register, pull, pull_or_wait, respond, run_register, submit};
use crate::same::assert_same;
use crate::settling::{Numbers, Remains, settle_book};
use crate::setup::{Client, Lock, drop_lock, grant, open_client, open_one};
use dmc_book::fault::{AdmitCause, AdmitFault, ExtendFault, RunFault};
use dmc_book::pass::WorkerPass;
use dmc_book::settled::Settled;
use dmc_ledger::desk::ClientDesk;
use dmc_ledger::mint::{Blank, Mint};
use dmc_ledger::setup::Setup;
use dmc_qlock::fault::RunOrRange;
use dmc_tag::reply::Pulled;
use dmc_tests_setup::opening::{Book, both, drop_book, only};
use dmc_tick::tick::TickTag;
use dmc_types::ids::{ClientId, WorkerId};
use std::alloc::Global;
use std::marker::Brand;
use std::sync::Wait;
use std::test::Fail;
use std::thread;
use std::thread::Threads;

const THREE: ClientId = ClientId(3);

const EIGHT: WorkerId = WorkerId(8);

/// Admits a client with its desk.
fn admit<S: Setup, R: Wait>(rt: &R, lock: &Lock<S>, desk: ClientDesk<S>) -> Result<(), AdmitCause> {
    match lock.admit(rt, desk) {
        Ok(()) => Ok(()),
        Err(fault) => {
            let AdmitFault { desk, cause } = fault;
            drop(desk);
            Err(cause)
        }
    }
}

/// Admits a client that has no desk yet.
fn admit_new<S: Setup, R: Wait>(
    rt: &R,
    alloc: Global,
    lock: &Lock<S>,
    mint: &mut Mint<S>,
    id: ClientId,
) -> Result<Client<S>, Fail> {
    let (desk, client) = open_client(alloc, mint, id)?;
    admit(rt, lock, desk)?;
    Ok(client)
}

/// Why client 3 is not admitted again.
fn admit_again<S: Setup, R: Wait>(
    rt: &R,
    alloc: Global,
    lock: &Lock<S>,
    mint: &mut Mint<S>,
) -> Result<Option<AdmitCause>, Fail> {
    let (desk, client) = open_client(alloc, mint, THREE)?;
    drop(client);
    Ok(admit(rt, lock, desk).err())
}

/// What a client and a worker that come later meet.
#[derive(Clone, Copy, Debug, PartialEq, Eq)]
struct Joined {
    before: Option<RunFault>,
    again: Option<AdmitCause>,
    behind: Option<RunOrRange>,
    late: Pulled,
    extended: Pulled,
    leaves: (bool, bool),
}

/// A worker leaves, first with a grant in service, and then without.
fn leave<S: Setup, R: Wait>(
    rt: &R,
    lock: &Lock<S>,
    pass: WorkerPass<S>,
    client: &mut Client<S>,
) -> Result<(bool, bool), Fail> {
    let Err(mut pass) = lock.dismiss(rt, pass) else {
        return Ok((true, false));
    };
    respond(&mut pass, client)?;
    Ok((false, lock.dismiss(rt, pass).is_ok()))
}

/// Two requests of client 3: a worker that comes later is granted the first, and the pass that is extended the second.
fn pull_both<S: Setup, R: Wait>(
    rt: &R,
    alloc: Global,
    lock: &Lock<S>,
    pass: &mut WorkerPass<S>,
    late: &mut WorkerPass<S>,
) -> Result<(Option<RunOrRange>, Pulled, Pulled), Fail> {
    let behind = pull(rt, lock, pass).err();
    let first = pull(rt, lock, late)?;
    lock.extend(rt, alloc, pass)?;
    Ok((behind, first, pull(rt, lock, pass)?))
}

/// Client 3 and worker 8 come later, and the worker leaves.
fn join_later<S: Setup, R: Wait>(
    rt: &R,
    alloc: Global,
    lock: &Lock<S>,
    pass: &mut WorkerPass<S>,
    mint: &mut Mint<S>,
) -> Result<Joined, Fail> {
    let before = run_register(rt, lock, pass, THREE, None)?;
    let mut client = admit_new(rt, alloc, lock, mint, THREE)?;
    let again = admit_again(rt, alloc, lock, mint)?;
    must_register(rt, lock, pass, THREE, None)?;
    submit(rt, lock, pass, &mut client, 5)?;
    submit(rt, lock, pass, &mut client, 6)?;
    let mut worker = lock.enrol(rt, alloc, EIGHT, mint)?;
    let (behind, late, extended) = pull_both(rt, alloc, lock, pass, &mut worker)?;
    let leaves = leave(rt, lock, worker, &mut client)?;
    Ok(Joined {
        before,
        again,
        behind,
        late,
        extended,
        leaves,
    })
}

/// Opens the lock, and settles its book with one pass.
fn settle_one<S: Setup>(
    alloc: Global,
    lock: Lock<S>,
    pass: WorkerPass<S>,
) -> Result<Remains, Fail> {
    let passes = only(alloc, pass)?;
    let mut book = lock.into_book();
    let remains = settle_book(alloc, &mut book, passes);
    drop_book(book);
    remains
}

fn joined_later<S: Setup, R: Wait>(
    rt: &R,
    alloc: Global,
    blank: Blank,
) -> Result<(Joined, Remains), Fail>
    requires { blank.name ≡ S.name }
{
    let mut mint = blank.open::<S>();
    let (lock, mut pass, one) = open_one(alloc, &mut mint, 100)?;
    drop(one);
    match join_later(rt, alloc, &lock, &mut pass, &mut mint) {
        Ok(joined) => Ok((joined, settle_one(alloc, lock, pass)?)),
        Err(fail) => {
            drop(pass);
            drop_lock(lock);
            Err(fail)
        }
    }
}

#[test]
fn later_client_and_worker(rt: HostRuntime) -> Result<(), Fail> {
    let answer = joined_later::<Brand, HostRuntime>(&rt, rt.alloc(), Blank::new(64))?;
    let expected = Joined {
        before: Some(RunFault::NoDesk),
        again: Some(AdmitCause::Known),
        behind: Some(RunOrRange::Run(RunFault::Behind)),
        late: grant(THREE, 5),
        extended: grant(THREE, 6),
        leaves: (false, true),
    };
    let seven = Numbers {
        worker: 7,
        calls: 4,
        misses: 0,
        tokens: 11,
        grants: 1,
        granted: 6,
        cost: 1,
    };
    let eight = Numbers {
        worker: 8,
        calls: 1,
        misses: 0,
        tokens: 0,
        grants: 1,
        granted: 5,
        cost: 1,
    };
    assert_same(&rt, &answer, &(expected, (0, seven, eight)));
    Ok(())
}

// How many clients come while a worker pulls, and how many requests each submits.
const CLIENTS: u32 = 4;

const REQUESTS: u32 = 10;

/// The reason why a worker pulls no more, though the queue is not closed and empty.
#[derive(Clone, Copy, Debug, PartialEq, Eq)]
enum PullStop {
    Pull(RunOrRange),
    Extend(ExtendFault),
    /// It pulled more often than there are requests, or one is due later.
    Unfinished,
}

/// Extends a pass that is behind.
fn extend<S: Setup, R: Wait>(
    rt: &R,
    alloc: Global,
    lock: &Lock<S>,
    pass: &mut WorkerPass<S>,
) -> Result<(), PullStop> {
    match lock.extend(rt, alloc, pass) {
        Ok(()) => Ok(()),
        Err(fault) => Err(PullStop::Extend(fault)),
    }
}

/// Pulls until the queue is closed and empty, and extends the pass if it is behind. Returns how many grants it got.
fn pull_all<S: Setup, R: Wait>(
    rt: &R,
    alloc: Global,
    lock: &Lock<S>,
    pass: &mut WorkerPass<S>,
) -> Result<u32, PullStop> {
    let mut granted: u32 = 0;
    for _ in 0..10_000 {
        match pull_or_wait(rt, lock, pass) {
            Ok(Pulled::Returning { .. }) => granted = granted.saturating_add(1),
            Ok(Pulled::Nothing) => return Ok(granted),
            Ok(Pulled::Future(_)) => return Err(PullStop::Unfinished),
            Err(RunOrRange::Run(RunFault::Behind)) => extend(rt, alloc, lock, pass)?,
            Err(fault) => return Err(PullStop::Pull(fault)),
        }
    }
    Err(PullStop::Unfinished)
}

/// A client comes, registered by a worker that comes and leaves, and submits.
fn come<S: Setup, R: Wait>(
    rt: &R,
    alloc: Global,
    lock: &Lock<S>,
    pass: &mut WorkerPass<S>,
    mint: &mut Mint<S>,
    number: u32,
) -> Result<(), Fail> {
    let id = ClientId(number);
    let mut client = admit_new(rt, alloc, lock, mint, id)?;
    let mut worker = lock.enrol(rt, alloc, WorkerId(number), mint)?;
    must_register(rt, lock, &mut worker, id, None)?;
    if lock.dismiss(rt, worker).is_err() {
        return Err(Fail::new("a worker that leaves"));
    }
    for token in 0..REQUESTS {
        submit(rt, lock, pass, &mut client, token)?;
    }
    Ok(())
}

/// Clients come, one after the other.
fn come_each<S: Setup, R: Wait>(
    rt: &R,
    alloc: Global,
    lock: &Lock<S>,
    pass: &mut WorkerPass<S>,
    mint: &mut Mint<S>,
) -> Result<(), Fail> {
    for i in 0..CLIENTS {
        come(rt, alloc, lock, pass, mint, i + 10)?;
    }
    Ok(())
}

/// Clients come, and the queue is closed.
fn come_and_close<S: Setup, R: Wait>(
    rt: &R,
    alloc: Global,
    lock: &Lock<S>,
    pass: &mut WorkerPass<S>,
    mint: &mut Mint<S>,
) -> Result<(), Fail> {
    let came = come_each(rt, alloc, lock, pass, mint);
    close(rt, lock);
    came
}

/// A worker pulls while clients and workers come and workers leave. Returns how many grants it got.
fn come_amid_pulls<S: Setup + Send + Sync, R: Threads + Wait + Sync>(
    rt: &R,
    alloc: Global,
    lock: &Lock<S>,
    puller: &mut WorkerPass<S>,
    submitter: &mut WorkerPass<S>,
    mint: &mut Mint<S>,
) -> Result<u32, Fail> {
    let (granted, came) = thread::join(
        rt,
        move || pull_all(rt, alloc, lock, puller),
        move || come_and_close(rt, alloc, lock, submitter, mint),
    );
    came?;
    Ok(granted?)
}

/// What a settled book has of all workers: the requests that are left, the events, and the calls and grants.
type Totals = (u32, usize, u64, u64);

fn totals<S: Setup>(settled: &Settled<TickTag, S>) -> Totals {
    let mut calls: u64 = 0;
    let mut grants: u64 = 0;
    for seat in settled.workers.as_slice() {
        calls = calls.saturating_add(seat.calls());
        grants = grants.saturating_add(seat.grants());
    }
    (settled.left, settled.history.len(), calls, grants)
}

fn settle_all<S: Setup>(
    alloc: Global,
    book: &mut Book<S>,
    passes: Vec<WorkerPass<S>>,
) -> Result<Totals, Fail> {
    match book.settle(alloc, passes) {
        Ok(settled) => Ok(totals(&settled)),
        Err(_) => Err(Fail::new("its own passes")),
    }
}

/// A worker that comes and submits, while the first pulls.
fn come_with<S: Setup + Send + Sync, R: Threads + Wait + Sync>(
    rt: &R,
    alloc: Global,
    lock: &Lock<S>,
    puller: &mut WorkerPass<S>,
    mint: &mut Mint<S>,
) -> Result<(u32, WorkerPass<S>), Fail> {
    let mut submitter = lock.enrol(rt, alloc, EIGHT, mint)?;
    let granted = come_amid_pulls(rt, alloc, lock, puller, &mut submitter, mint)?;
    Ok((granted, submitter))
}

/// Opens the lock, and settles its book with two passes.
fn settle_two<S: Setup>(
    alloc: Global,
    lock: Lock<S>,
    first: WorkerPass<S>,
    second: WorkerPass<S>,
) -> Result<Totals, Fail> {
    let passes = both(alloc, first, second)?;
    let mut book = lock.into_book();
    let totals = settle_all(alloc, &mut book, passes);
    drop_book(book);
    totals
}

fn came<S: Setup + Send + Sync, R: Threads + Wait + Sync>(
    rt: &R,
    alloc: Global,
    blank: Blank,
) -> Result<(u32, Totals), Fail>
    requires { blank.name ≡ S.name }
{
    let mut mint = blank.open::<S>();
    let (lock, mut puller, one) = open_one(alloc, &mut mint, 1000)?;
    drop(one);
    match come_with(rt, alloc, &lock, &mut puller, &mut mint) {
        Ok((granted, submitter)) => Ok((granted, settle_two(alloc, lock, puller, submitter)?)),
        Err(fail) => {
            drop(puller);
            drop_lock(lock);
            Err(fail)
        }
    }
}

#[test]
fn come_and_go_amid_pulls(rt: HostRuntime) -> Result<(), Fail> {
    let answer = came::<Brand, HostRuntime>(&rt, rt.alloc(), Blank::new(100))?;
    // 4 registrations, 40 submits, 40 grants and the last pull
    assert_same(&rt, &answer, &(40, (0, 85, 85, 40)));
    Ok(())
}
