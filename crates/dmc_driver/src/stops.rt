//! Whether the stops of a run are those that the servers' histories explain.
ghost use Rattle.std.specs.Prelude.{◌≡◌, ◌+◌, ◌<◌, ◌^◌, ◌++◌, ◌↔◌, IsTrue, is_some, length};
ghost use Rattle.dmc_book.specs.Counts.{grant_in};
ghost use Rattle.dmc_driver.specs.Stops.{AreExplained, AreServerStops, GoesOn, IsClientEnd, IsEndAt, IsServerEnd, IsServerStop, calls_in, causes, ends_of, first_refused, is_nothing, listed, own_worker, refused};
ghost use Rattle.dmc_driver.specs.internal.Walks.{AreClientEnds, AreEnds, AreStopsOfServers, IsRestAfter, refused_at, with_event, with_refused};

use dmc_queue_history::history::EventHistory;
use dmc_scene::client::SceneClient;
use dmc_scene::scene::Scene;
use dmc_settle::report::{ClientReport, ClusterReport, ServerReport, StopCause};
use dmc_tag::event::Event;
use dmc_tag::reply::Reply;
use dmc_tag::tag::Tag;

/// What was refused of a worker's calls: nothing, one of them, or several.
#[derive(Clone, Copy, PartialEq, Eq)]
pub(crate) enum Refusals {
    None,
    One(StopCause),
    Several,
}

/// How many calls of a worker got a reply, how many of them a grant, and how many Nothing; and what was refused of them.
#[derive(Clone, Copy)]
pub(crate) struct Calls {
    replies: u64,
    grants: u64,
    nothings: u64,
    refused: Refusals,
}

fn is_grant<T: Tag>(reply: Reply<T>) -> bool
    ensures { result ≡ is_some (grant_in reply) }
{
    matches!(reply, Reply::Granted { .. })
}

fn is_nothing<T: Tag>(reply: Reply<T>) -> bool
    ensures { result ≡ is_nothing reply }
{
    matches!(reply, Reply::Nothing)
}

/// What a reply refused, as the cause of a stop.
fn refused<T: Tag>(reply: Reply<T>) -> Option<StopCause>
    ensures { result ≡ refused reply }
{
    match reply {
        Reply::Refused(refusal) => Some(StopCause::Refused(refusal)),
        _ => None,
    }
}

/// With what was refused of one call more, if it was.
fn with_refused(refused: Refusals, cause: Option<StopCause>) -> Refusals
    ensures { result ≡ with_refused refused cause }
{
    match (refused, cause) {
        (refused, None) => refused,
        (Refusals::None, Some(cause)) => Refusals::One(cause),
        (_, Some(_)) => Refusals::Several,
    }
}

/// A worker's calls with those of one event more, if there is one.
fn add_event<T: Tag>(worker: u64, calls: Calls, event: Option<Event<T>>) -> Calls
    requires replies { calls.replies + 1 < 2 ^ 64 }
    requires grants { calls.grants + 1 < 2 ^ 64 }
    requires nothings { calls.nothings + 1 < 2 ^ 64 }
    ensures { result ≡ with_event worker calls event }
{
    let Some(event) = event else {
        return calls;
    };
    if u64::from(event.worker.0) != worker {
        return calls;
    }
    Calls {
        replies: calls.replies + 1,
        grants: calls.grants + u64::from(is_grant(event.reply)),
        nothings: calls.nothings + u64::from(is_nothing(event.reply)),
        refused: with_refused(calls.refused, refused(event.reply)),
    }
}

/// The calls that a history has of a worker.
fn count_calls<T: Tag>(worker: u64, history: &EventHistory<T>) -> Calls
    ensures { result ≡ calls_in worker history.now.events }
{
    let mut calls = Calls {
        replies: 0,
        grants: 0,
        nothings: 0,
        refused: Refusals::None,
    };
    for i in 0..history.len() {
        calls = add_event(worker, calls, history.at(i));
    }
    calls
}

/// Whether no call of a worker found nothing or was refused.
fn goes_on(calls: Calls) -> bool
    ensures { IsTrue result ↔ GoesOn calls }
{
    calls.nothings == 0 && calls.refused == Refusals::None
}

/// Whether a server's worker of these calls stopped for this cause.
fn is_server_stop(most: u32, calls: Calls, cause: StopCause) -> bool
    ensures { IsTrue result ↔ IsServerStop most calls cause }
{
    let most = u64::from(most);
    match cause {
        StopCause::Turns => calls.replies == most && goes_on(calls),
        StopCause::Refused(_) => {
            calls.replies <= most && calls.nothings == 0 && calls.refused == Refusals::One(cause)
        }
        StopCause::HistoryFull | StopCause::Memory => calls.replies <= most && goes_on(calls),
        StopCause::TrackFull => calls.replies <= most && calls.grants > 0 && goes_on(calls),
        StopCause::Spawn => calls.replies == 0,
        StopCause::Rung | StopCause::Stray => false,
    }
}

/// Whether a server's worker of these calls ended so.
fn is_server_end(most: u32, calls: Calls, end: Option<StopCause>) -> bool
    ensures { IsTrue result ↔ IsServerEnd most calls end }
{
    match end {
        None => {
            calls.replies <= u64::from(most)
                && calls.nothings == 1
                && calls.refused == Refusals::None
        }
        Some(cause) => is_server_stop(most, calls, cause),
    }
}

/// The number of a server's own worker.
fn own_worker(scene: &Scene, server: u32, place: u32) -> u64
    requires servers { server < scene.now.servers }
    requires workers { place < scene.now.workers }
    ensures { result ≡ own_worker scene.now server place }
{
    let clients = scene.clients().len() as u64;
    let workers = u64::from(scene.workers());
    clients + u64::from(server) * workers + u64::from(place)
}

/// Whether the own worker of a server at a place ended so, by the server's history.
fn is_end_at<T: Tag>(
    scene: &Scene,
    server: u32,
    history: &EventHistory<T>,
    place: u32,
    end: Option<StopCause>,
) -> bool
    requires servers { server < scene.now.servers }
    requires workers { place < scene.now.workers }
    ensures { IsTrue result ↔ IsEndAt scene.now server history.now.events place end }
{
    let calls = count_calls(own_worker(scene, server, place), history);
    is_server_end(scene.max_pulls(), calls, end)
}

/// Whether each of a server's workers ended as its history says.
fn are_ends<T: Tag>(
    scene: &Scene,
    server: u32,
    history: &EventHistory<T>,
    ends: &[Option<StopCause>],
) -> bool
    requires servers { server < scene.now.servers }
    requires an_end_each { length ends.now ≡ scene.now.workers }
    ensures { IsTrue result ↔ AreEnds scene.now server history.now.events ends.now }
{
    for k in 0..scene.workers() {
        if !is_end_at(scene, server, history, k, ends[k as usize]) {
            return false;
        }
    }
    true
}

/// What was refused at a place of a history, if it was.
fn refused_at<T: Tag>(place: usize, history: &EventHistory<T>) -> Option<StopCause>
    ensures { result ≡ refused_at place history.now.events }
{
    match history.at(place) {
        Some(event) => refused(event.reply),
        None => None,
    }
}

/// The stops after this one, if it is one; `None` if it is not the first of them.
fn after_stop(stop: Option<StopCause>, stops: &[StopCause]) -> Option<&[StopCause]>
    ensures { IsRestAfter (listed stop) stops.now result }
{
    let Some(cause) = stop else {
        return Some(stops);
    };
    let (first, rest) = stops.split_first()?;
    if *first == cause { Some(rest) } else { None }
}

/// The stops after what was refused of the first commands; `None` if they do not begin with that.
fn after_refused<'a, T: Tag>(
    commands: usize,
    history: &EventHistory<T>,
    stops: &'a [StopCause],
) -> Option<&'a [StopCause]>
    ensures { IsRestAfter (first_refused commands history.now.events) stops.now result }
{
    let mut rest = stops;
    for i in 0..commands {
        rest = after_stop(refused_at(i, history), rest)?;
    }
    Some(rest)
}

/// Strips the stops in `ends` from the front of `stops`; `None` if they differ.
fn after_ends<'a>(ends: &[Option<StopCause>], stops: &'a [StopCause]) -> Option<&'a [StopCause]>
    ensures { IsRestAfter (causes ends.now) stops.now result }
{
    let mut rest = stops;
    for end in ends {
        rest = after_stop(*end, rest)?;
    }
    Some(rest)
}

/// Whether `stops` lists the refused registrations first, then its workers' stops, in order.
fn are_causes<T: Tag>(
    commands: usize,
    history: &EventHistory<T>,
    ends: &[Option<StopCause>],
    stops: &[StopCause],
) -> bool
    ensures { IsTrue result ↔ (stops.now ≡ first_refused commands history.now.events ++ causes ends.now) }
{
    let Some(others) = after_refused(commands, history, stops) else {
        return false;
    };
    let Some(rest) = after_ends(ends, others) else {
        return false;
    };
    rest.is_empty()
}

/// Whether a server's stops are those that its history explains, if its own workers ended so.
fn are_server_stops<T: Tag>(
    scene: &Scene,
    server: u32,
    row: &ServerReport<T>,
    ends: &[Option<StopCause>],
) -> bool
    requires { server < scene.now.servers }
    ensures { IsTrue result ↔ AreServerStops scene.now server ends.now row.now }
{
    if ends.len() != scene.workers() as usize {
        return false;
    }
    are_ends(scene, server, &row.history, ends)
        && are_causes(scene.clients().len(), &row.history, ends, &row.stops)
}

/// Whether every server's stops are explained by its history.
fn are_stops_of_servers<T: Tag>(
    scene: &Scene,
    rows: &[ServerReport<T>],
    ends: &[Vec<Option<StopCause>>],
) -> bool
    requires { length rows.now ≡ scene.now.servers }
    ensures { IsTrue result ↔ AreStopsOfServers scene.now ends.now rows.now }
{
    if ends.len() != rows.len() {
        return false;
    }
    for k in 0..scene.servers() {
        if !are_server_stops(scene, k, &rows[k as usize], &ends[k as usize]) {
            return false;
        }
    }
    true
}

/// Whether a client's worker ended so, by how many of its requests were accepted.
fn is_client_end(requests: u32, sent: u64, end: Option<StopCause>) -> bool
    ensures { IsTrue result ↔ IsClientEnd requests sent end }
{
    let requests = u64::from(requests);
    match end {
        None => sent == requests,
        Some(StopCause::Spawn) => sent == 0,
        Some(StopCause::Turns | StopCause::Stray) => false,
        Some(_) => sent < requests,
    }
}

/// Whether each client's worker ended so.
fn are_client_ends(clients: &[SceneClient], rows: &[ClientReport]) -> bool
    requires { length rows.now ≡ length clients.now }
    ensures { IsTrue result ↔ AreClientEnds clients.now rows.now }
{
    for i in 0..clients.len() {
        if !is_client_end(clients[i].requests(), rows[i].sent, rows[i].stop) {
            return false;
        }
    }
    true
}

/// Whether the histories explain the stops of a report, if the servers' own workers ended so.
pub(crate) fn are_stops<T: Tag>(
    scene: &Scene,
    report: &ClusterReport<T>,
    ends: &[Vec<Option<StopCause>>],
) -> bool
    requires servers { length report.now.servers.items ≡ scene.now.servers }
    requires clients { length report.now.clients.items ≡ length scene.now.clients }
    ensures { IsTrue result ↔ AreExplained scene.now (ends_of ends.now) report.now }
{
    are_stops_of_servers(scene, &report.servers, ends)
        && are_client_ends(scene.clients(), &report.clients)
}
