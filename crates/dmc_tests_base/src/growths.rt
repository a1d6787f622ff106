//! Queues, rosters and indexes that grow, with each allocation refused in turn: a call that reports an allocation failure leaves
//! its value as it was, and works when it is made again.
use crate::failures::Failures;
use crate::kinds::{Example, over_all};
use crate::runs::{config, drop_queue};
use crate::same::assert_same;
use dmc_index::index::Indexes;
use dmc_plain::queue::PlainQueue;
use dmc_pull::queue::PullQueue;
use dmc_tag::reply::Reply;
use dmc_tag::scheduler::Scheduler;
use dmc_tick::tick::TickTag;
use dmc_types::command::Command;
use dmc_types::ids::{ClientId, Token};
use dmc_types::info::ClientInfo;
use dmc_types::moment::Moment;
use dmc_types::params::ReqParams;
use std::alloc::{AllocError, Global};
use std::process::Abort;
use std::test::Fail;

// How many clients register, and how many requests each has queued.
const CLIENTS: u32 = 40;

const REQUESTS: u32 = 12;

/// A queue's clients and requests.
fn counts<Q: Scheduler<TickTag>>(queue: &Q) -> (u32, u32) {
    (queue.client_count(), queue.request_count())
}

/// A queue's reply to a command. If it reports an allocation failure it has changed nothing, and the command is given again.
fn reply<Q: Scheduler<TickTag>>(
    rt: &impl Abort,
    queue: &mut Q,
    failures: &mut Failures,
    command: &Command,
) -> Result<Reply<TickTag>, AllocError> {
    let before = counts(queue);
    if let Ok(reply) = queue.apply(command) {
        return Ok(reply);
    }
    failures.note();
    assert_same(rt, &counts(queue), &before);
    queue.apply(command)
}

/// Registers a client. Clients have different weights, and every third has a reservation.
fn register<Q: Scheduler<TickTag>>(
    rt: &impl Abort,
    queue: &mut Q,
    failures: &mut Failures,
    id: u32,
) -> Result<(), Fail> {
    let reservation = if id % 3 == 0 { Some(10) } else { None };
    let command = Command::Register {
        client: ClientId(id),
        info: ClientInfo::new(reservation, 1 + id % 2, None)?,
        at: Moment::zero(),
    };
    assert_same(
        rt,
        &reply(rt, queue, failures, &command)?,
        &Reply::Registered,
    );
    Ok(())
}

/// Queues a request.
fn add<Q: Scheduler<TickTag>>(
    rt: &impl Abort,
    queue: &mut Q,
    failures: &mut Failures,
    id: u32,
    token: u32,
) -> Result<(), Fail> {
    let command = Command::Add {
        client: ClientId(id),
        token: Token(token),
        params: ReqParams::new(1, 1)?,
        at: Moment::zero(),
    };
    let tagged = reply(rt, queue, failures, &command)?;
    assert!(rt; matches!(tagged, Reply::Tagged(_)));
    Ok(())
}

/// Registers the clients, and queues the requests.
fn fill<Q: Scheduler<TickTag>>(
    rt: &impl Abort,
    queue: &mut Q,
    failures: &mut Failures,
) -> Result<(), Fail> {
    for id in 0..CLIENTS {
        register(rt, queue, failures, id)?;
    }
    for token in 0..CLIENTS * REQUESTS {
        add(rt, queue, failures, token % CLIENTS, token)?;
    }
    assert_same(rt, &counts(queue), &(CLIENTS, CLIENTS * REQUESTS));
    Ok(())
}

/// The token of the next request that a queue grants, at a moment so late that every reservation is due.
fn next_token<Q: Scheduler<TickTag>>(queue: &mut Q) -> Result<u32, Fail> {
    let at = Moment::new(100_000)?;
    match queue.apply(&Command::Pull { at })? {
        Reply::Granted { token, .. } => Ok(token.0),
        _ => Err(Fail::new("a grant")),
    }
}

/// Both queues grant the same requests in the same order.
fn assert_grants<P: Scheduler<TickTag>, Q: Scheduler<TickTag>>(
    rt: &impl Abort,
    expected: &mut P,
    queue: &mut Q,
) -> Result<(), Fail> {
    for _ in 0..CLIENTS * REQUESTS {
        let token = next_token(expected)?;
        assert_same(rt, &next_token(queue)?, &token);
    }
    Ok(())
}

/// An indexed queue grants what the reference queue grants, whichever allocations were refused.
fn grown<I: Indexes<TickTag>>(
    rt: &impl Abort,
    alloc: Global,
    queue: &mut PullQueue<TickTag, I>,
) -> Result<(), Fail> {
    let mut failures = Failures::none();
    let mut expected: PlainQueue<TickTag> = PlainQueue::new(alloc, config()?);
    fill(rt, &mut expected, &mut failures)?;
    fill(rt, queue, &mut failures)?;
    assert_grants(rt, &mut expected, queue)?;
    Ok(failures.end()?)
}

/// Queues that grow, over a kind of indexes.
pub fn grown_over<I: Indexes<TickTag>>(rt: &impl Abort, alloc: Global) -> Result<(), Fail> {
    let config = config()?;
    let mut queue: PullQueue<TickTag, I> = PullQueue::new(alloc, config);
    let answered = grown(rt, alloc, &mut queue);
    drop_queue(queue);
    answered
}

#[test]
fn grown_queues(rt: HostRuntime) -> Result<(), Fail> {
    over_all(&rt, rt.alloc(), Example::GrownQueues)
}
