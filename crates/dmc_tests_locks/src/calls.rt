//! The calls of a queue's lock, each in a function that promises only what the next call requires. Their results are tested by
//! running them.
ghost use Rattle.std.specs.Prelude.{IfOk};
ghost use Rattle.dmc_ledger.specs.Bundles.{Covers, stamp_holdings};

use crate::setup::Client;
use dmc_book::fault::{RunFault, SubmitCause};
use dmc_book::pass::WorkerPass;
use dmc_book::status::Status;
use dmc_index::index::Indexes;
use dmc_ledger::bundle::StampTills;
use dmc_ledger::setup::Setup;
use dmc_ledger::stamp::Stamp;
use dmc_qlock::fault::RunOrRange;
use dmc_qlock::lock::QueueLock;
use dmc_tag::reply::{Pulled, Tags};
use dmc_tests_setup::calls::{self, register};
use dmc_tests_setup::opening::ZERO;
use dmc_tick::tick::TickTag;
use dmc_tlock::book::TrackerBook;
use dmc_tlock::fault::EntryFault;
use dmc_types::ids::{ClientId, Token};
use dmc_types::moment::Moment;
use std::sync::Wait;
use std::test::Fail;

/// Registers a client at the lock, and returns why it is refused, if it is.
pub(crate) fn run_register<I: Indexes<TickTag>, S: Setup, R: Wait>(
    rt: &R,
    lock: &QueueLock<TickTag, I, S>,
    pass: &mut WorkerPass<S>,
    client: ClientId,
    limit: Option<u32>,
) -> Result<Option<RunFault>, Fail> {
    let command = register(client, limit)?;
    Ok(lock.run(rt, pass, command).err())
}

/// Registers a client at the lock.
pub(crate) fn must_register<I: Indexes<TickTag>, S: Setup, R: Wait>(
    rt: &R,
    lock: &QueueLock<TickTag, I, S>,
    pass: &mut WorkerPass<S>,
    client: ClientId,
    limit: Option<u32>,
) -> Result<(), Fail> {
    match run_register(rt, lock, pass, client, limit)? {
        None => Ok(()),
        Some(fault) => Err(fault.into()),
    }
}

/// The reason why a request is not submitted.
#[derive(Clone, Copy, Debug, PartialEq, Eq)]
pub(crate) enum Stop {
    NoTills,
    Stamp(EntryFault),
    Submit(SubmitCause),
    /// Another's stamp was returned.
    Swapped,
    /// A request was accepted after one was refused Closed.
    Reopened,
}

/// Submits a stamped request at moment 0. Returns its tags, or whose stamp comes back, and the cause.
pub(crate) fn submit_stamped<I: Indexes<TickTag>, S: Setup, R: Wait>(
    rt: &R,
    lock: &QueueLock<TickTag, I, S>,
    pass: &mut WorkerPass<S>,
    tills: &mut StampTills<S>,
    stamp: Stamp,
    token: u32,
) -> Result<Tags<TickTag>, (ClientId, SubmitCause)>
    requires { Covers (stamp_holdings tills.old) stamp.params }
{
    match lock.submit(rt, pass, tills, stamp, Token(token), Moment::zero()) {
        Ok(tags) => Ok(tags),
        Err(fault) => Err((fault.stamp.client(), fault.cause)),
    }
}

/// A pull at moment 0.
pub(crate) fn pull<I: Indexes<TickTag>, S: Setup, R: Wait>(
    rt: &R,
    lock: &QueueLock<TickTag, I, S>,
    pass: &mut WorkerPass<S>,
) -> Result<Pulled, RunOrRange> {
    lock.pull(rt, pass, Moment::zero())
}

/// What the worker of the pass sees of the queue.
pub(crate) fn status<I: Indexes<TickTag>, S: Setup, R: Wait>(
    rt: &R,
    lock: &QueueLock<TickTag, I, S>,
    pass: &WorkerPass<S>,
) -> Result<Status, RunFault> {
    lock.status(rt, pass)
}

/// Closes the queue.
pub(crate) fn close<I: Indexes<TickTag>, S: Setup, R: Wait>(
    rt: &R,
    lock: &QueueLock<TickTag, I, S>,
) {
    lock.close(rt);
}

/// A pull at moment 0 that may wait.
pub(crate) fn pull_or_wait<I: Indexes<TickTag>, S: Setup, R: Wait>(
    rt: &R,
    lock: &QueueLock<TickTag, I, S>,
    pass: &mut WorkerPass<S>,
) -> Result<Pulled, RunOrRange> {
    lock.pull_or_wait(rt, pass, Moment::zero())
}

/// A stamp of the tracker, which the tills cover.
fn stamp<S: Setup>(tracker: &mut TrackerBook<S>, tills: &mut StampTills<S>) -> Result<Stamp, Stop>
    ensures { IfOk result (λ stamp. Covers (stamp_holdings tills.new) stamp.params) }
{
    match calls::stamp(tracker, ZERO, tills) {
        Ok(stamp) => Ok(stamp),
        Err(fault) => Err(Stop::Stamp(fault)),
    }
}

/// The reason why a client's request is not submitted: whose stamp came back, and the cause.
fn stop_of(client: ClientId, (owner, cause): (ClientId, SubmitCause)) -> Stop {
    if owner == client {
        Stop::Submit(cause)
    } else {
        Stop::Swapped
    }
}

/// Stamps a request at its client's tracker, and submits it at moment 0.
pub(crate) fn submit<I: Indexes<TickTag>, S: Setup, R: Wait>(
    rt: &R,
    lock: &QueueLock<TickTag, I, S>,
    pass: &mut WorkerPass<S>,
    client: &mut Client<S>,
    token: u32,
) -> Result<Tags<TickTag>, Stop> {
    let Some(tills) = client.tills.tills(ZERO) else {
        return Err(Stop::NoTills);
    };
    let stamp = stamp(&mut client.tracker, tills)?;
    match submit_stamped(rt, lock, pass, tills, stamp, token) {
        Ok(tags) => Ok(tags),
        Err(refused) => Err(stop_of(client.id, refused)),
    }
}

/// Whether the request was refused Closed.
pub(crate) fn was_closed(answer: Result<Tags<TickTag>, Stop>) -> Result<bool, Stop> {
    match answer {
        Ok(_) => Ok(false),
        Err(Stop::Submit(SubmitCause::Closed)) => Ok(true),
        Err(stop) => Err(stop),
    }
}

/// Returns the unit of the last grant to its client's tracker.
pub(crate) fn respond<S: Setup>(
    pass: &mut WorkerPass<S>,
    client: &mut Client<S>,
) -> Result<(), Fail> {
    calls::respond(pass, &mut client.tracker)
}
