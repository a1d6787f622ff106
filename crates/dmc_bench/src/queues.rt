//! A queue whose clients are all busy, and one with a single client.
use crate::fault::Fault;
use crate::load::{Load, mixed};
use crate::watch::{add_since, print, start};
use dmc_tag::reply::Pulled;
use dmc_tag::scheduler::Scheduler;
use dmc_tag::tag::Tag;
use dmc_types::ids::{ClientId, Token};
use dmc_types::info::ClientInfo;
use dmc_types::moment::Moment;
use dmc_types::params::ReqParams;

/// Ticks a second.
pub const HZ: u32 = 1_000_000;

/// Registers the clients, queues a request of each at one moment, and then serves them in batches: pulls, and another request of
/// each client that was granted. Returns a checksum of the grants.
pub fn serve_queue<T: Tag, Q: Scheduler<T>>(
    rt: &HostRuntime,
    queue: &mut Q,
    load: Load,
) -> Result<u64, Fault> {
    let begun = start(rt)?;
    register_all(queue, load)?;
    print(rt, "register", load.clients, add_since(rt, begun, 0)?)?;
    let begun = start(rt)?;
    for id in 0..load.clients {
        add(queue, ClientId(id), Moment::zero())?;
    }
    print(rt, "newcomer", load.clients, add_since(rt, begun, 0)?)?;
    serve(rt, queue, load)
}

/// Registers one client, queues this many requests of it, and then pulls one and queues another, by turns. Returns a checksum of
/// the grants.
pub fn serve_deep<T: Tag, Q: Scheduler<T>>(
    rt: &HostRuntime,
    queue: &mut Q,
    load: Load,
) -> Result<u64, Fault> {
    register_all(queue, Load { clients: 1, ..load })?;
    let begun = start(rt)?;
    for _ in 0..load.clients {
        add(queue, ClientId(0), Moment::zero())?;
    }
    print(rt, "fill", load.clients, add_since(rt, begun, 0)?)?;
    let begun = start(rt)?;
    let checksum = take_turns(queue, load.rounds)?;
    print(rt, "turn", load.rounds, add_since(rt, begun, 0)?)?;
    Ok(checksum)
}

/// Pulls a request and queues another of its client, this often. Returns a checksum of the grants.
fn take_turns<T: Tag, Q: Scheduler<T>>(queue: &mut Q, rounds: u32) -> Result<u64, Fault> {
    let mut checksum = 0;
    for _ in 0..rounds {
        if let Ok(Pulled::Returning { client, .. }) = queue.pull_request(Moment::zero()) {
            add(queue, client, Moment::zero())?;
            checksum = mixed(checksum, 1);
        }
    }
    Ok(checksum)
}

/// Registers the clients 0, 1, and so on.
fn register_all<T: Tag, Q: Scheduler<T>>(queue: &mut Q, load: Load) -> Result<(), Fault> {
    let info = ClientInfo::new(Some(10), 1, load.limit)?;
    for id in 0..load.clients {
        queue.register(ClientId(id), info, Moment::zero())?;
    }
    Ok(())
}

/// Queues a request.
fn add<T: Tag, Q: Scheduler<T>>(queue: &mut Q, client: ClientId, at: Moment) -> Result<(), Fault> {
    let params = ReqParams::new(1, 1)?;
    queue.add_request(client, Token(client.0), params, at)?;
    Ok(())
}

/// The ticks from one batch to the next: half the spacing of the limit, so that about half of the clients are due at each.
fn step_of(limit: Option<u32>) -> u64 {
    match limit {
        None => 1,
        Some(limit) => HZ.checked_div(limit).unwrap_or(0) as u64 / 2,
    }
}

/// Batches of pulls and adds, one moment each, of about half of the clients, so that many stay busy.
fn serve<T: Tag, Q: Scheduler<T>>(
    rt: &HostRuntime,
    queue: &mut Q,
    load: Load,
) -> Result<u64, Fault> {
    let batch = (load.clients / 2 + 1).min(load.rounds);
    let batches = load.rounds.checked_div(batch).unwrap_or(0);
    let mut granted = Vec::with_capacity(rt.alloc(), batch as usize)?;
    let step = step_of(load.limit);
    let mut pulling = 0;
    let mut adding = 0;
    let mut checksum = 0;
    for round in 0..batches {
        let ticks = step.saturating_mul(round as u64);
        let at = Moment::new(ticks)?;
        let begun = start(rt)?;
        pull_all(queue, batch, at, &mut granted)?;
        pulling = add_since(rt, begun, pulling)?;
        let begun = start(rt)?;
        checksum = add_all(queue, granted.as_slice(), at, checksum)?;
        adding = add_since(rt, begun, adding)?;
        granted.clear();
    }
    let calls = batches.saturating_mul(batch);
    print(rt, "pull", calls, pulling)?;
    print(rt, "add", calls, adding)?;
    Ok(checksum)
}

/// Pulls this often, and notes whose requests were granted.
#[inline(never)]
pub fn pull_all<T: Tag, Q: Scheduler<T>>(
    queue: &mut Q,
    batch: u32,
    at: Moment,
    granted: &mut Vec<ClientId>,
) -> Result<(), Fault> {
    for _ in 0..batch {
        if let Ok(Pulled::Returning { client, .. }) = queue.pull_request(at) {
            granted.push(client)?;
        }
    }
    Ok(())
}

/// Queues a request of each, and returns the checksum with their ids in it.
fn add_all<T: Tag, Q: Scheduler<T>>(
    queue: &mut Q,
    granted: &[ClientId],
    at: Moment,
    checksum: u64,
) -> Result<u64, Fault> {
    let mut checksum = checksum;
    for client in granted {
        add(queue, *client, at)?;
        checksum = mixed(checksum, client.0 as u64);
    }
    Ok(checksum)
}
