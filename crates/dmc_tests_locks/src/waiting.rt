//! Workers that wait for a request.
ghost use Rattle.std.specs.Prelude.{◌≡◌, false};
ghost use Rattle.dmc_book.specs.Calls.{is_add};

use crate::calls::{close, must_register, pull, pull_or_wait, respond, submit};
use crate::same::assert_same;
use crate::setup::{Client, Lock, Opened, drop_lock, last_pass, last_two, open};
use dmc_book::pass::WorkerPass;
use dmc_ledger::mint::{Blank, Mint};
use dmc_ledger::setup::Setup;
use dmc_qlock::fault::RunOrRange;
use dmc_tag::reply::Pulled;
use dmc_tests_setup::opening::ONE;
use dmc_types::command::Command;
use dmc_types::config::Counting;
use dmc_types::ids::{Token, WorkerId};
use std::alloc::Global;
use std::marker::Brand;
use std::process::Abort;
use std::sync::Wait;
use std::test::Fail;
use std::thread;
use std::thread::Threads;

/// The results of two workers that wait at once.
type Answers = (Result<Pulled, RunOrRange>, Result<Pulled, RunOrRange>);

fn both_wait<S: Setup + Send + Sync, R: Threads + Wait + Sync>(
    rt: &R,
    lock: &Lock<S>,
    first: &mut WorkerPass<S>,
    second: &mut WorkerPass<S>,
) -> Answers {
    thread::join(
        rt,
        move || pull_or_wait(rt, lock, first),
        move || pull_or_wait(rt, lock, second),
    )
}

/// The passes of two workers that wait.
#[derive(Drop)]
struct Waiting<S: Setup> {
    first: WorkerPass<S>,
    second: WorkerPass<S>,
}

/// A third worker, and the client whose requests it submits.
#[derive(Drop)]
struct Third<S: Setup> {
    pass: WorkerPass<S>,
    client: Client<S>,
}

/// The passes of two workers that wait, and that of the third.
fn last_three<S: Setup>(
    passes: &mut Vec<WorkerPass<S>>,
) -> Result<(Waiting<S>, WorkerPass<S>), Fail> {
    let pass = last_pass(passes)?;
    match last_two(passes) {
        Ok((first, second)) => Ok((Waiting { first, second }, pass)),
        Err(fail) => {
            drop(pass);
            Err(fail)
        }
    }
}

fn open_three<S: Setup>(
    alloc: Global,
    mint: &mut Mint<S>,
) -> Result<(Lock<S>, Waiting<S>, Third<S>), Fail> {
    let workers = [WorkerId(1), WorkerId(2), WorkerId(3)];
    let Opened {
        lock,
        one,
        two,
        mut passes,
    } = open(alloc, mint, &workers, 1000)?;
    let three = last_three(&mut passes);
    drop((two, passes));
    match three {
        Ok((waiting, pass)) => Ok((lock, waiting, Third { pass, client: one })),
        Err(fail) => {
            drop(one);
            drop_lock(lock);
            Err(fail)
        }
    }
}

/// A first request is submitted, granted and responded to. By the limit the next is due at 50.
fn spend<S: Setup, R: Wait>(rt: &R, lock: &Lock<S>, third: &mut Third<S>) -> Result<(), Fail> {
    must_register(rt, lock, &mut third.pass, ONE, Some(20))?;
    submit(rt, lock, &mut third.pass, &mut third.client, 0)?;
    pull(rt, lock, &mut third.pass)?;
    respond(&mut third.pass, &mut third.client)
}

/// Two workers wait while the third submits a request that is not due. Returns whether it is accepted.
fn wait_for_request<S: Setup + Send + Sync, R: Threads + Wait + Sync>(
    rt: &R,
    lock: &Lock<S>,
    waiting: &mut Waiting<S>,
    third: &mut Third<S>,
) -> (Answers, bool) {
    thread::join(
        rt,
        move || both_wait(rt, lock, &mut waiting.first, &mut waiting.second),
        move || submit(rt, lock, &mut third.pass, &mut third.client, 1).is_ok(),
    )
}

/// Two workers wait while a third thread closes the queue.
fn wait_for_close<S: Setup + Send + Sync, R: Threads + Wait + Sync>(
    rt: &R,
    lock: &Lock<S>,
    waiting: &mut Waiting<S>,
) -> Answers {
    let (ended, ()) = thread::join(
        rt,
        move || both_wait(rt, lock, &mut waiting.first, &mut waiting.second),
        move || close(rt, lock),
    );
    ended
}

/// The results of two workers that wait for a request, and, once a command took it out, for another one or a close.
fn woken_observed<S: Setup + Send + Sync, R: Threads + Wait + Sync>(
    rt: &R,
    lock: &Lock<S>,
    waiting: &mut Waiting<S>,
    third: &mut Third<S>,
    command: Command,
) -> Result<(Answers, Answers), Fail>
    requires { is_add command ≡ false }
{
    spend(rt, lock, third)?;
    let (observed, accepted) = wait_for_request(rt, lock, waiting, third);
    if !accepted {
        return Err(Fail::new("an accepted request"));
    }
    lock.run(rt, &mut third.pass, command)?;
    Ok((observed, wait_for_close(rt, lock, waiting)))
}

fn woken<S: Setup + Send + Sync, R: Threads + Wait + Sync>(
    rt: &R,
    alloc: Global,
    blank: Blank,
    command: Command,
) -> Result<(Answers, Answers), Fail>
    requires setup { blank.name ≡ S.name }
    requires adds_nothing { is_add command ≡ false }
{
    let mut mint = blank.open::<S>();
    let (lock, mut waiting, mut third) = open_three(alloc, &mut mint)?;
    let observed = woken_observed(rt, &lock, &mut waiting, &mut third, command);
    drop((waiting, third));
    drop_lock(lock);
    observed
}

/// Both workers saw when the request was due, and then that nothing was queued.
fn assert_woken(rt: &impl Abort, (observed, ended): (Answers, Answers)) {
    let future = (Ok(Pulled::Future(50)), Ok(Pulled::Future(50)));
    assert_same(rt, &observed, &future);
    let nothing = (Ok(Pulled::Nothing), Ok(Pulled::Nothing));
    assert_same(rt, &ended, &nothing);
}

#[test]
fn all_who_wait_are_woken(rt: HostRuntime) -> Result<(), Fail> {
    let command = Command::Remove { client: ONE };
    let answers = woken::<Brand, HostRuntime>(&rt, rt.alloc(), Blank::new(33), command)?;
    assert_woken(&rt, answers);
    Ok(())
}

/// The request that they waited for is taken back.
#[test]
fn all_are_woken_after_a_cancel(rt: HostRuntime) -> Result<(), Fail> {
    let command = Command::Cancel {
        client: ONE,
        token: Token(1),
        counting: Counting::All,
    };
    let answers = woken::<Brand, HostRuntime>(&rt, rt.alloc(), Blank::new(33), command)?;
    assert_woken(&rt, answers);
    Ok(())
}
