//! When a request is due.
ghost use Rattle.std.specs.Prelude.{◌≡◌, None, fold};
ghost use Rattle.dmc_tag.specs.Rules as rules_of;
ghost use Rattle.dmc_tag.specs.State.{queued_requests};
ghost use Rattle.dmc_plain.specs.internal.Due.{sooner, least_due};

use crate::client::Client;
use dmc_tag::plain::QueuedRequest;
use dmc_tag::tag::Tag;

/// The least whole number at which the request is early or free.
fn due_moment<T: Tag>(request: &QueuedRequest<T>) -> u128
    ensures { result ≡ rules_of.due_moment T.ops request.now }
{
    let free = moment_of(request.tags.l.ceil());
    match request.tags.r {
        None => free,
        Some(r) => free.min(moment_of(r.ceil())),
    }
}

/// The whole number as a moment: 0 if it is below 0.
fn moment_of(ticks: i128) -> u128
    ensures { result ≡ rules_of.moment_of ticks }
{
    if ticks < 0 { 0 } else { ticks as u128 }
}

/// The earlier of a moment, if there is one, and that at which the request is due.
fn sooner<T: Tag>(moment: Option<u128>, request: &QueuedRequest<T>) -> Option<u128>
    ensures { result ≡ sooner T.ops moment request.now }
{
    let due = due_moment(request);
    match moment {
        None => Some(due),
        Some(moment) => Some(moment.min(due)),
    }
}

/// The earliest of a moment, if there is one, and those at which one of the requests is due.
fn soonest<T: Tag>(moment: Option<u128>, requests: &[QueuedRequest<T>]) -> Option<u128>
    ensures { result ≡ fold (sooner T.ops) moment requests.now }
{
    let mut least = moment;
    for request in requests {
        least = sooner(least, request);
    }
    least
}

/// The least whole number at which some request is early or free, and `None` if nothing is queued.
pub fn least_due<T: Tag>(clients: &[Client<T>]) -> Option<u128>
    ensures { result ≡ least_due T.ops (queued_requests clients.now) }
{
    let mut least: Option<u128> = None;
    for client in clients {
        least = soonest(least, client.requests());
    }
    least
}
