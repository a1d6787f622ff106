//! Two threads that submit at once, and a third that closes the queue.
ghost use Rattle.std.specs.Prelude.{◌≡◌};

use crate::calls::{Stop, close, must_register, pull, status, submit, was_closed};
use crate::same::assert_same;
use crate::settling::{Numbers, Remains, settle};
use crate::setup::{Client, Lock, Opened, TWO, drop_lock, grant, last_two, open};
use dmc_book::pass::WorkerPass;
use dmc_ledger::mint::{Blank, Mint};
use dmc_ledger::setup::Setup;
use dmc_tag::reply::Pulled;
use dmc_tests_setup::opening::{ONE, ZERO};
use dmc_types::ids::WorkerId;
use std::alloc::Global;
use std::marker::Brand;
use std::sync::Wait;
use std::test::Fail;
use std::thread;
use std::thread::Threads;

// How many requests each thread submits.
const REQUESTS: u32 = 100;

/// A worker's pass, and the client whose requests the worker submits.
#[derive(Drop)]
pub(crate) struct Job<S: Setup> {
    pub(crate) pass: WorkerPass<S>,
    pub(crate) client: Client<S>,
}

/// Submits a token. Once the queue is closed each submit has to be refused Closed. Returns whether it is closed.
fn submit_next<S: Setup, R: Wait>(
    rt: &R,
    lock: &Lock<S>,
    job: &mut Job<S>,
    token: u32,
    closed: bool,
) -> Result<bool, Stop> {
    let now = was_closed(submit(rt, lock, &mut job.pass, &mut job.client, token))?;
    if closed && !now {
        return Err(Stop::Reopened);
    }
    Ok(now)
}

/// How many stamps the client's pass holds.
fn stamps_held<S: Setup>(job: &mut Job<S>) -> Result<u64, Stop> {
    match job.client.tills.tills(ZERO) {
        Some(tills) => Ok(tills.stamps.amount()),
        None => Err(Stop::NoTills),
    }
}

/// Submits tokens 0 to 99. Returns how many stamps the client's pass then holds.
fn submit_all<S: Setup, R: Wait>(rt: &R, lock: &Lock<S>, job: &mut Job<S>) -> Result<u64, Stop> {
    let mut closed = false;
    for token in 0..REQUESTS {
        closed = submit_next(rt, lock, job, token, closed)?;
    }
    stamps_held(job)
}

/// Two threads submit at once. Returns how many stamps the clients' passes then hold.
pub(crate) fn submit_both<S: Setup + Send + Sync, R: Threads + Wait + Sync>(
    rt: &R,
    lock: &Lock<S>,
    first: &mut Job<S>,
    second: &mut Job<S>,
) -> Result<(u64, u64), Stop> {
    let (left, more) = thread::join(
        rt,
        move || submit_all(rt, lock, first),
        move || submit_all(rt, lock, second),
    );
    Ok((left?, more?))
}

/// A lock, and the jobs of workers 1 and 2.
pub(crate) fn open_two<S: Setup>(
    alloc: Global,
    mint: &mut Mint<S>,
) -> Result<(Lock<S>, Job<S>, Job<S>), Fail> {
    let Opened {
        lock,
        one,
        two,
        mut passes,
    } = open(alloc, mint, &[WorkerId(1), WorkerId(2)], 1000)?;
    let pair = last_two(&mut passes);
    drop(passes);
    match pair {
        Ok((pass, other)) => {
            let first = Job { pass, client: one };
            let second = Job {
                pass: other,
                client: two,
            };
            Ok((lock, first, second))
        }
        Err(fail) => {
            drop((one, two));
            drop_lock(lock);
            Err(fail)
        }
    }
}

/// A worker registers clients 1 and 2.
pub(crate) fn register_both<S: Setup, R: Wait>(
    rt: &R,
    lock: &Lock<S>,
    pass: &mut WorkerPass<S>,
) -> Result<(), Fail> {
    must_register(rt, lock, pass, ONE, None)?;
    must_register(rt, lock, pass, TWO, None)
}

/// What two submitting threads leave: calls, tokens and grants of worker 1; calls and tokens of
/// worker 2; clients, requests and events.
type Left = ((u64, u64, u64), (u64, u64), (u32, u32, u64));

fn left_by_both<S: Setup, R: Wait>(
    rt: &R,
    lock: &Lock<S>,
    first: &Job<S>,
    second: &Job<S>,
) -> Result<Left, Fail> {
    let own = status(rt, lock, &first.pass)?;
    let other = status(rt, lock, &second.pass)?;
    Ok((
        (own.calls, own.tokens, own.grants),
        (other.calls, other.tokens),
        (own.clients, own.requests, own.events),
    ))
}

/// A pull, and the worker's calls, misses, grants and granted then.
fn pull_last<S: Setup, R: Wait>(
    rt: &R,
    lock: &Lock<S>,
    pass: &mut WorkerPass<S>,
) -> Result<(Pulled, (u64, u64, u64, u64)), Fail> {
    let pulled = pull(rt, lock, pass)?;
    let last = status(rt, lock, pass)?;
    Ok((pulled, (last.calls, last.misses, last.grants, last.granted)))
}

/// The stamps in the passes after two threads submitted, what they left, and a pull of worker 2.
#[derive(Clone, Copy, Debug, PartialEq, Eq)]
struct Submitted {
    stamps: (u64, u64),
    left: Left,
    pulled: (Pulled, (u64, u64, u64, u64)),
}

fn submit_and_pull<S: Setup + Send + Sync, R: Threads + Wait + Sync>(
    rt: &R,
    lock: &Lock<S>,
    first: &mut Job<S>,
    second: &mut Job<S>,
) -> Result<Submitted, Fail> {
    register_both(rt, lock, &mut first.pass)?;
    let stamps = submit_both(rt, lock, first, second)?;
    let left = left_by_both(rt, lock, first, second)?;
    let pulled = pull_last(rt, lock, &mut second.pass)?;
    Ok(Submitted {
        stamps,
        left,
        pulled,
    })
}

/// The pass of a job, which is dropped.
pub(crate) fn pass_of<S: Setup>(job: Job<S>) -> WorkerPass<S> {
    let Job { pass, client } = job;
    drop(client);
    pass
}

/// Two threads submit; what they leave once the lock is opened.
fn two_at_once<S: Setup + Send + Sync, R: Threads + Wait + Sync>(
    rt: &R,
    alloc: Global,
    blank: Blank,
) -> Result<(Submitted, Remains), Fail>
    requires { blank.name ≡ S.name }
{
    let mut mint = blank.open::<S>();
    let (lock, mut first, mut second) = open_two(alloc, &mut mint)?;
    match submit_and_pull(rt, &lock, &mut first, &mut second) {
        Ok(submitted) => {
            let remains = settle(alloc, lock, pass_of(first), pass_of(second))?;
            Ok((submitted, remains))
        }
        Err(fail) => {
            drop((first, second));
            drop_lock(lock);
            Err(fail)
        }
    }
}

/// What has to remain: the requests but the one that was granted, and the numbers of workers 1 and 2.
fn two_remain() -> Remains {
    let one = Numbers {
        worker: 1,
        calls: 102,
        misses: 0,
        tokens: 4950,
        grants: 0,
        granted: 0,
        cost: 0,
    };
    let two = Numbers {
        worker: 2,
        calls: 101,
        grants: 1,
        cost: 1,
        ..one
    };
    (199, one, two)
}

#[test]
fn two_threads(rt: HostRuntime) -> Result<(), Fail> {
    let answer = two_at_once::<Brand, HostRuntime>(&rt, rt.alloc(), Blank::new(27))?;
    let wanted = Submitted {
        stamps: (0, 0),
        left: ((102, 4950, 0), (100, 4950), (2, 200, 202)),
        pulled: (grant(ONE, 0), (101, 0, 1, 0)),
    };
    assert_same(&rt, &answer, &(wanted, two_remain()));
    Ok(())
}

/// Two threads submit while a third closes the queue.
fn submit_amid_close<S: Setup + Send + Sync, R: Threads + Wait + Sync>(
    rt: &R,
    lock: &Lock<S>,
    first: &mut Job<S>,
    second: &mut Job<S>,
) -> Result<(u64, u64), Stop> {
    let (stamps, ()) = thread::join(
        rt,
        move || submit_both(rt, lock, first, second),
        move || close(rt, lock),
    );
    stamps
}

/// The calls of both workers at a closed queue.
fn calls_once_closed<S: Setup, R: Wait>(
    rt: &R,
    lock: &Lock<S>,
    first: &Job<S>,
    second: &Job<S>,
) -> Result<(u64, u64), Fail> {
    let own = status(rt, lock, &first.pass)?;
    let other = status(rt, lock, &second.pass)?;
    if !own.closed {
        return Err(Fail::new("a closed queue"));
    }
    Ok((own.calls, other.calls))
}

/// A third thread closes the queue at some point: the calls of both workers, and the stamps left in
/// the clients' passes.
type Amid = ((u64, u64), (u64, u64));

fn amid_observed<S: Setup + Send + Sync, R: Threads + Wait + Sync>(
    rt: &R,
    lock: &Lock<S>,
    first: &mut Job<S>,
    second: &mut Job<S>,
) -> Result<Amid, Fail> {
    register_both(rt, lock, &mut first.pass)?;
    let stamps = submit_amid_close(rt, lock, first, second)?;
    let calls = calls_once_closed(rt, lock, first, second)?;
    Ok((calls, stamps))
}

fn closed_at_once<S: Setup + Send + Sync, R: Threads + Wait + Sync>(
    rt: &R,
    alloc: Global,
    blank: Blank,
) -> Result<Amid, Fail>
    requires { blank.name ≡ S.name }
{
    let mut mint = blank.open::<S>();
    let (lock, mut first, mut second) = open_two(alloc, &mut mint)?;
    let observed = amid_observed(rt, &lock, &mut first, &mut second);
    drop((first, second));
    drop_lock(lock);
    observed
}

#[test]
fn close_amid_submits(rt: HostRuntime) -> Result<(), Fail> {
    let answer = closed_at_once::<Brand, HostRuntime>(&rt, rt.alloc(), Blank::new(27))?;
    let ((own, other), (left, more)) = answer;
    assert_same(&rt, &own.checked_add(left), &Some(102));
    assert_same(&rt, &other.checked_add(more), &Some(100));
    Ok(())
}
