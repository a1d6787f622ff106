//! A storage back end in small: server 0 with its queue, and three clients with a tracker each. It reads a monotonic clock, and
//! takes the rates that its operator typed.
#![tactic(auto)]

mod first;

ghost use Rattle.std.specs.Prelude.{◌≡◌, ◌+◌, OnOk};

use anyhow::{Result, bail};
use dmclock::{
    AtLimit, ClientId, ClientInfo, Cost, Counting, FINE_HZ, Moment, PhaseType, Pulled, QueueConfig,
    Scheduler, ServerId, ServiceTracker, Shares, TickQueue, TickTag, Token, nanos_until,
};
use std::alloc::Global;
use std::rt::Clock;
use std::thread;
use std::time::{Duration, Instant};

/// How many requests each client makes.
const REQUESTS: u32 = 4;

/// A client stamps its requests by its tracker, and reports each response to the tracker.
#[derive(Drop)]
struct Client {
    id: ClientId,
    tracker: ServiceTracker,
    sent: u32,
    served: u32,
}

impl Client {
    /// Stamps a request, and queues it. A stamp is no completion.
    fn submit<Q: Scheduler<TickTag>>(&mut self, queue: &mut Q, at: Moment) -> Result<()>
        ensures { self.new.tracker.completions ≡ self.old.tracker.completions }
    {
        let params = self.tracker.get_req_params(ServerId(0), Cost::ONE)?;
        if let Err(fault) = queue.add_request(self.id, Token(self.sent), params, at) {
            return Err(fault.into());
        }
        self.sent = self.sent.saturating_add(1);
        Ok(())
    }

    /// A response is a completion of this cost.
    fn respond(&mut self, phase: PhaseType, cost: Cost) -> Result<()>
        ensures { OnOk result (self.new.tracker.completions.delta ≡ self.old.tracker.completions.delta + cost) }
    {
        self.tracker.track_resp(ServerId(0), phase, cost)?;
        self.served = self.served.saturating_add(1);
        Ok(())
    }
}

/// The moment of the clock.
fn now(rt: &impl Clock, start: &Instant) -> Result<Moment> {
    let nanos = u64::try_from(start.elapsed(rt)?.as_nanos())?;
    let Some(moment) = Moment::from_nanos(FINE_HZ, nanos) else {
        bail!("the clock is past the last moment");
    };
    Ok(moment)
}

/// Sleeps until a request is due.
fn sleep_until(rt: &impl Clock, start: &Instant, due: u128) -> Result<()> {
    let Some(nanos) = nanos_until(FINE_HZ, due) else {
        bail!("the next request is due after the last moment of the clock");
    };
    let due = Duration::from_nanos(nanos);
    thread::sleep(rt, due.saturating_sub(start.elapsed(rt)?));
    Ok(())
}

/// Serves what is granted until nothing is queued. A client that is served makes its next request.
fn serve_all<Q: Scheduler<TickTag>>(
    rt: &impl Clock,
    start: &Instant,
    queue: &mut Q,
    all: &mut Vec<Client>,
) -> Result<()> {
    for _ in 0..10_000 {
        let at = now(rt, start)?;
        match queue.pull_request(at)? {
            Pulled::Returning {
                client,
                phase,
                cost,
                ..
            } => {
                complete(all, client, phase, cost)?;
                request_next(queue, all, client, at)?;
            }
            Pulled::Future(due) => sleep_until(rt, start, due)?,
            Pulled::Nothing => return Ok(()),
        }
    }
    bail!("requests are left after 10,000 pulls")
}

/// The client that was granted a request.
fn granted(all: &mut [Client], client: ClientId) -> Result<&mut Client> {
    let Some(client) = all.get_mut(client.0 as usize) else {
        bail!("a grant to an unknown client");
    };
    Ok(client)
}

/// Here a device would do the work. The client gets its response.
fn complete(all: &mut [Client], client: ClientId, phase: PhaseType, cost: Cost) -> Result<()> {
    granted(all, client)?.respond(phase, cost)
}

/// The client makes its next request, if there is one.
fn request_next<Q: Scheduler<TickTag>>(
    queue: &mut Q,
    all: &mut [Client],
    client: ClientId,
    at: Moment,
) -> Result<()> {
    let client = granted(all, client)?;
    if client.sent < REQUESTS {
        client.submit(queue, at)?;
    }
    Ok(())
}

/// Registers the next client, and makes its first request.
fn join<Q: Scheduler<TickTag>>(
    alloc: Global,
    queue: &mut Q,
    all: &mut Vec<Client>,
    info: ClientInfo,
    at: Moment,
) -> Result<()> {
    let id = ClientId(u32::try_from(all.len())?);
    queue.register(id, info, at)?;
    let mut client = Client {
        id,
        tracker: ServiceTracker::new(alloc, 1, 1_000_000, Counting::All)?,
        sent: 0,
        served: 0,
    };
    client.submit(queue, at)?;
    all.push(client)?;
    Ok(())
}

/// A fine clock, and shares in virtual time. A client is idle after a minute and erased after ten.
fn config() -> Result<QueueConfig> {
    let minute = 60 * u64::from(FINE_HZ);
    let config = QueueConfig::new(u64::from(FINE_HZ), minute, 10 * minute, AtLimit::Wait)?;
    Ok(config.with_shares(Shares::Virtual))
}

/// Registers these clients, and serves them until nothing is queued.
fn serve_clients<Q: Scheduler<TickTag>>(
    rt: &HostRuntime,
    queue: &mut Q,
    all: &mut Vec<Client>,
    infos: [ClientInfo; 3],
) -> Result<()> {
    let start = Instant::now(rt)?;
    for info in infos {
        join(rt.alloc(), queue, all, info, now(rt, &start)?)?;
    }
    serve_all(rt, &start, queue, all)?;
    for client in all.iter() {
        println!(rt; "client {}: {} served", client.id.0, client.served)?;
    }
    Ok(())
}

fn main(rt: HostRuntime) -> Result<()> {
    first::serve_first(rt.alloc())?;
    println!(&rt; "the first request is served")?;

    let config = config()?;
    // What the operator asked for, in requests a second, rounded to rates that are exact: a reservation up, a limit down.
    let reservation = config.rate_at_least(1_234);
    let limit = config.rate_at_most(777);
    println!(&rt; "1234 reserved: {reservation:?}, at most 777: {limit:?}")?;
    let infos = [
        ClientInfo::new(reservation, 1, None)?,
        ClientInfo::new(None, 2, None)?,
        ClientInfo::new(None, 2, limit)?,
    ];
    let mut queue = TickQueue::new(rt.alloc(), config);
    serve_clients(&rt, &mut queue, &mut Vec::new(rt.alloc()), infos)
}
