//! A first request. README.md shows these functions.
ghost use Rattle.std.specs.Prelude.{◌<◌, OnOk};

use anyhow::{Result, bail};
use dmclock::{
    AtLimit, ClientId, ClientInfo, Cost, Counting, FINE_HZ, Moment, Pulled, QueueConfig, Scheduler,
    ServerId, ServiceTracker, Shares, TickQueue, TickTag, Token, rate_at_least, rate_at_most,
};
use std::alloc::Global;

/// Makes a queue and a client's tracker, and serves the client's first request.
pub fn serve_first(alloc: Global) -> Result<()> {
    let minute = 60 * u64::from(FINE_HZ); // a fine clock, for rates that an operator typed
    let config = QueueConfig::new(u64::from(FINE_HZ), minute, 10 * minute, AtLimit::Wait)?;
    let config = config.with_shares(Shares::Virtual); // who comes starts where the others are
    let mut tracker = ServiceTracker::new(alloc, 1, 1_000_000, Counting::All)?;
    serve_one(&mut TickQueue::new(alloc, config), &mut tracker)
}

/// Registers a client, and queues and serves a request of it. It is an error if the queue does not grant it.
fn serve_one<Q: Scheduler<TickTag>>(queue: &mut Q, tracker: &mut ServiceTracker) -> Result<()>
    ensures { OnOk result (tracker.old.completions.delta < tracker.new.completions.delta) }
{
    let reserved = rate_at_least(FINE_HZ, 1_234); // at least 1,234 requests a second
    let limit = rate_at_most(FINE_HZ, 5_000); // at most 5,000
    let info = ClientInfo::new(reserved, 2, limit)?; // and a weight of 2
    let now = Moment::zero(); // or Moment::from_nanos, of a monotonic clock
    queue.register(ClientId(7), info, now)?;
    let stamp = tracker.get_req_params(ServerId(0), Cost::ONE)?; // each request counts as one
    queue.add_request(ClientId(7), Token(1), stamp, now)?;
    let Pulled::Returning { phase, cost, .. } = queue.pull_request(now)? else {
        bail!("nothing may be granted yet");
    };
    // here a device serves the request; its response returns phase and cost to the client
    tracker.track_resp(ServerId(0), phase, cost)?;
    Ok(())
}
