//! Gathers what the threads of a run leave.
ghost use Rattle.std.specs.Prelude.{◌≡◌, ◌≤◌, [], length, map, All, vec_capacity};
ghost use Rattle.dmc_driver_threads.specs.Opened.{IsOpenedTracker, IsWitnessed};

use crate::client_worker::ClientJob;
use crate::cluster::Cluster;
use crate::origin::{ClientLock, Origin};
use crate::remains::Remains;
use crate::server_worker::ServerJob;
use dmc_book::pass::WorkerPass;
use dmc_ledger::setup::Setup;
use dmc_qlock::lock::LockedQueue;
use dmc_settle::report::{ClientReport, ServerReport, StopCause};
use dmc_settle::settle::Passes;
use dmc_shared::witness::{Lasting, Witness};
use dmc_tag::tag::Tag;
use dmc_tlock::book::TrackerBook;

/// Room for the books that are taken out of their locks.
#[derive(Drop)]
pub(crate) struct Room<B, S: Setup> {
    pub(crate) books: Vec<B>,
    pub(crate) trackers: Vec<TrackerBook<S>>,
}

/// Gathers what was shared, and what the jobs of the clients' and the servers' workers hold. The books go where there is room
/// for them.
pub(crate) fn gather<T: Tag, B: Lasting + Drop, W: Witness<B> + Drop, S: Origin>(
    cluster: Cluster<B, W, S>,
    clients: Vec<ClientJob<S>>,
    servers: Vec<ServerJob<S>>,
    room: Room<B, S>,
    remains: &mut Remains<T, B, S>,
)
    requires books { room.books.items ≡ [] }
    requires books_fit { length cluster.queues.items ≤ vec_capacity room.books }
    requires trackers { room.trackers.items ≡ [] }
    requires trackers_fit { length cluster.trackers.items ≤ vec_capacity room.trackers }
    ensures clients { map (λ r. r.client) remains.new.report.clients.items ≡ map (λ r. r.client) remains.old.report.clients.items }
    ensures servers { map (λ r. r.server) remains.new.report.servers.items ≡ map (λ r. r.server) remains.old.report.servers.items }
    ensures books { All (IsWitnessed W.holds) remains.new.books.items }
    ensures as_many_books { length remains.new.books.items ≡ length cluster.queues.items }
    ensures trackers { All (IsOpenedTracker S.scene S.limits) remains.new.trackers.items }
    ensures as_many_trackers { length remains.new.trackers.items ≡ length cluster.trackers.items }
{
    remains.books = take_books(cluster.queues, room.books);
    remains.trackers = take_trackers(cluster.trackers, room.trackers);
    let rows: &mut [ClientReport] = &mut remains.report.clients;
    gather_clients(clients, &mut remains.passes, rows);
    gather_servers(
        servers,
        &mut remains.passes.workers,
        &mut remains.ends,
        rows,
    );
    add_stops(&remains.ends, &mut remains.report.servers);
}

/// Takes the books out of their locks. There is room for them.
fn take_books<B: Lasting + Drop, W: Witness<B> + Drop>(
    locks: Vec<LockedQueue<B, W>>,
    room: Vec<B>,
) -> Vec<B>
    requires empty { room.items ≡ [] }
    requires fits { length locks.items ≤ vec_capacity room }
    ensures books { All (IsWitnessed W.holds) result.items }
    ensures as_many { length result.items ≡ length locks.items }
{
    let mut books = room;
    for lock in locks {
        let (book, _) = lock.into_parts();
        let _ = books.push(book);
    }
    books
}

/// Takes the tracker books out of their locks. There is room for them.
fn take_trackers<S: Origin>(
    locks: Vec<ClientLock<S>>,
    room: Vec<TrackerBook<S>>,
) -> Vec<TrackerBook<S>>
    requires empty { room.items ≡ [] }
    requires fits { length locks.items ≤ vec_capacity room }
    ensures trackers { All (IsOpenedTracker S.scene S.limits) result.items }
    ensures as_many { length result.items ≡ length locks.items }
{
    let mut books = room;
    for lock in locks {
        let (book, _) = lock.into_parts();
        let _ = books.push(book);
    }
    books
}

/// Gathers what the clients' workers leave.
fn gather_clients<S: Setup>(
    jobs: Vec<ClientJob<S>>,
    passes: &mut Passes<S>,
    rows: &mut [ClientReport],
)
    ensures { map (λ r. r.client) rows.new ≡ map (λ r. r.client) rows.old }
{
    for job in jobs {
        gather_client(job, passes, rows);
    }
}

/// The tills and the passes of a client's worker, and why it stopped.
fn gather_client<S: Setup>(job: ClientJob<S>, passes: &mut Passes<S>, rows: &mut [ClientReport])
    ensures { map (λ r. r.client) rows.new ≡ map (λ r. r.client) rows.old }
{
    keep_stop(job.place, job.stop, rows);
    let _ = passes.clients.push(job.tills);
    put_back(job.passes, &mut passes.workers);
}

/// Why the worker of the client at a place stopped.
fn keep_stop(place: usize, stop: Option<StopCause>, rows: &mut [ClientReport])
    ensures { map (λ r. r.client) rows.new ≡ map (λ r. r.client) rows.old }
{
    if place < rows.len() {
        rows[place].stop = stop;
    }
}

/// Puts a pass for each server beside those of the other workers there.
fn put_back<S: Setup>(own: Vec<WorkerPass<S>>, passes: &mut [Vec<WorkerPass<S>>]) {
    let mut servers = passes.iter_mut();
    for pass in own {
        if let Some(there) = servers.next() {
            let _ = there.push(pass);
        }
    }
}

/// Gathers what the servers' workers leave.
fn gather_servers<S: Setup>(
    jobs: Vec<ServerJob<S>>,
    passes: &mut [Vec<WorkerPass<S>>],
    ends: &mut [Vec<Option<StopCause>>],
    rows: &mut [ClientReport],
)
    ensures { map (λ r. r.client) rows.new ≡ map (λ r. r.client) rows.old }
{
    for job in jobs {
        gather_server(job, passes, ends, rows);
    }
}

/// The pass of a server's worker, the failures that it counted, and why it stopped.
fn gather_server<S: Setup>(
    job: ServerJob<S>,
    passes: &mut [Vec<WorkerPass<S>>],
    ends: &mut [Vec<Option<StopCause>>],
    rows: &mut [ClientReport],
)
    ensures { map (λ r. r.client) rows.new ≡ map (λ r. r.client) rows.old }
{
    let index = job.server.0 as usize;
    add_failures(&job.failures, rows);
    keep_end(index, job.place, job.stop, ends);
    put_pass(index, job.pass, passes);
}

/// Puts the pass of a worker beside those of the other workers of the server at a place.
fn put_pass<S: Setup>(index: usize, pass: WorkerPass<S>, passes: &mut [Vec<WorkerPass<S>>]) {
    if let Some(there) = passes.get_mut(index) {
        let _ = there.push(pass);
    }
}

/// Why the worker at a place of a server stopped, if it did.
fn keep_end(
    server: usize,
    place: usize,
    stop: Option<StopCause>,
    ends: &mut [Vec<Option<StopCause>>],
) {
    if let Some(own) = ends.get_mut(server) {
        set_end(place, stop, own);
    }
}

/// Why the worker at a place stopped, if it did.
fn set_end(place: usize, stop: Option<StopCause>, ends: &mut [Option<StopCause>]) {
    if let Some(end) = ends.get_mut(place) {
        *end = stop;
    }
}

/// Why the workers of each server stopped, those that did.
fn add_stops<T: Tag>(ends: &[Vec<Option<StopCause>>], rows: &mut [ServerReport<T>])
    ensures { map (λ r. r.server) rows.new ≡ map (λ r. r.server) rows.old }
{
    for (server, own) in ends.iter().enumerate() {
        add_stops_at(server, own, rows);
    }
}

/// Why the workers of the server at a place stopped, those that did.
fn add_stops_at<T: Tag>(server: usize, own: &[Option<StopCause>], rows: &mut [ServerReport<T>])
    ensures { map (λ r. r.server) rows.new ≡ map (λ r. r.server) rows.old }
{
    if server < rows.len() {
        add_own(own, &mut rows[server].stops);
    }
}

/// Why the workers of a server stopped, those that did.
fn add_own(ends: &[Option<StopCause>], stops: &mut Vec<StopCause>) {
    for end in ends {
        if let Some(cause) = *end {
            let _ = stops.push(cause);
        }
    }
}

/// Adds up the failures of each client.
fn add_failures(failures: &[u64], rows: &mut [ClientReport])
    ensures { map (λ r. r.client) rows.new ≡ map (λ r. r.client) rows.old }
{
    for (place, count) in failures.iter().enumerate() {
        add_failed(place, *count, rows);
    }
}

/// Adds this number of failures of the client at a place.
fn add_failed(place: usize, count: u64, rows: &mut [ClientReport])
    ensures { map (λ r. r.client) rows.new ≡ map (λ r. r.client) rows.old }
{
    if place < rows.len() {
        let row = &mut rows[place];
        row.failed = row.failed.saturating_add(count);
    }
}
