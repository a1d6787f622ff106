//! One client too many, and one request too many.
use crate::kinds::{Example, Kind, over};
use crate::runs::{config, drop_queue};
use crate::same::assert_same;
use dmc_index::index::Indexes;
use dmc_pull::queue::PullQueue;
use dmc_tag::reply::Pulled;
use dmc_tag::scheduler::Scheduler;
use dmc_tick::tick::TickTag;
use dmc_types::config::PhaseType;
use dmc_types::cost::Cost;
use dmc_types::ids::{ClientId, Token};
use dmc_types::info::ClientInfo;
use dmc_types::moment::Moment;
use dmc_types::params::ReqParams;
use dmc_types::refusal::{QueueFault, Refusal};
use std::alloc::Global;
use std::process::Abort;
use std::test::Fail;

// The greatest number of clients of a queue.
const CLIENTS: u32 = 65_536;

// The greatest number of queued requests of a queue.
const REQUESTS: u32 = 1_048_576;

// Registers as many clients as there may be: 0, 1, ..
fn register_all<S: Scheduler<TickTag>>(queue: &mut S, info: ClientInfo) -> Result<(), QueueFault> {
    for id in 0..CLIENTS {
        queue.register(ClientId(id), info, Moment::zero())?;
    }
    Ok(())
}

// One client too many, through the bound of a scheduler.
fn client_too_many<S: Scheduler<TickTag>>(rt: &impl Abort, queue: &mut S) -> Result<(), Fail> {
    let info = ClientInfo::new(None, 1, None)?;
    register_all(queue, info)?;
    let refused = queue.register(ClientId(CLIENTS), info, Moment::zero());
    assert_same(rt, &refused, &Err(QueueFault::Refused(Refusal::Clients)));
    assert_same(rt, &queue.client_count(), &CLIENTS);
    Ok(())
}

// Queues a request of client 1.
fn add<S: Scheduler<TickTag>>(
    queue: &mut S,
    token: u32,
    params: ReqParams,
) -> Result<(), QueueFault> {
    queue.add_request(ClientId(1), Token(token), params, Moment::zero())?;
    Ok(())
}

// Queues as many requests as there may be: the tokens 0, 1, ..
fn add_all<S: Scheduler<TickTag>>(queue: &mut S, params: ReqParams) -> Result<(), QueueFault> {
    for token in 0..REQUESTS {
        add(queue, token, params)?;
    }
    Ok(())
}

// One request too many, which is accepted once another is granted.
fn request_too_many<S: Scheduler<TickTag>>(rt: &impl Abort, queue: &mut S) -> Result<(), Fail> {
    let params = ReqParams::new(1, 0)?;
    add_all(queue, params)?;
    assert_same(
        rt,
        &add(queue, REQUESTS, params),
        &Err(QueueFault::Refused(Refusal::QueueFull)),
    );
    let first = Pulled::Returning {
        client: ClientId(1),
        token: Token(0),
        phase: PhaseType::Priority,
        cost: Cost::ONE,
        beyond: false,
    };
    assert_same(rt, &queue.pull_request(Moment::zero()), &Ok(first));
    add(queue, REQUESTS, params)?;
    assert_same(rt, &queue.request_count(), &REQUESTS);
    Ok(())
}

// One client and one request too many.
fn refused_at_limits<S: Scheduler<TickTag>>(rt: &impl Abort, queue: &mut S) -> Result<(), Fail> {
    client_too_many(rt, queue)?;
    request_too_many(rt, queue)
}

/// One client and one request too many at the indexed queue, proved once for all kinds of indexes.
pub fn limits_over<I: Indexes<TickTag>>(rt: &impl Abort, alloc: Global) -> Result<(), Fail> {
    let config = config()?;
    let mut queue: PullQueue<TickTag, I> = PullQueue::new(alloc, config);
    let refused = refused_at_limits(rt, &mut queue);
    drop_queue(queue);
    refused
}

#[test]
fn queue_limits(rt: HostRuntime) -> Result<(), Fail> {
    over(&rt, rt.alloc(), Kind::Heaps, Example::Limits)
}
