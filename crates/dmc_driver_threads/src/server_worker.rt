//! A worker of a server: it pulls, has the granted requests served, and rings their clients.

use crate::bell::{Ring, Ringer};
use crate::cause::{of_entry, of_pull};
use crate::cluster::Cluster;
use crate::moments::Moments;
use crate::origin::{AsOpened, ClientLock, Origin, ServerLock};
use crate::service::{Job, Service};
use dmc_book::book::QueueBook;
use dmc_book::pass::WorkerPass;
use dmc_index::index::Indexes;
use dmc_ledger::setup::Setup;
use dmc_settle::report::StopCause;
use dmc_shared::witness::{Lasting, Witness};
use dmc_tag::reply::Pulled;
use dmc_tag::tag::Tag;
use dmc_types::ids::ServerId;
use std::sync::Wait;

/// What a worker of a server has of its own.
#[derive(Drop)]
pub(crate) struct ServerJob<S: Setup> {
    pub(crate) server: ServerId,
    /// Its place among the server's own workers.
    pub(crate) place: usize,
    pub(crate) pass: WorkerPass<S>,
    /// At the clients' doors, in the scene's order.
    pub(crate) ringers: Vec<Ringer>,
    /// How many services failed, of each client.
    pub(crate) failures: Vec<u64>,
    /// Why it stopped, if it did.
    pub(crate) stop: Option<StopCause>,
}

/// The work of a server's worker. If it stops, so do the clients.
pub(crate) fn run_server<T, I, S, V, M, R>(
    rt: &R,
    cluster: &Cluster<QueueBook<T, I, S>, AsOpened<S>, S>,
    service: &V,
    moments: &M,
    job: &mut ServerJob<S>,
)
where
    T: Tag,
    I: Indexes<T>,
    S: Origin,
    V: Service,
    M: Moments,
    R: Wait,
{
    job.stop = take_turns(rt, cluster, service, moments, job).err();
    if job.stop.is_some() {
        stop_all(rt, &mut job.ringers);
    }
}

/// Rings every client's worker to end.
pub(crate) fn stop_all<R: Wait>(rt: &R, ringers: &mut [Ringer]) {
    for ringer in ringers.iter_mut() {
        ringer.ring(rt, Ring::Stop);
    }
}

/// Takes turns until the closed queue has nothing left.
fn take_turns<T, I, S, V, M, R>(
    rt: &R,
    cluster: &Cluster<QueueBook<T, I, S>, AsOpened<S>, S>,
    service: &V,
    moments: &M,
    job: &mut ServerJob<S>,
) -> Result<(), StopCause>
where
    T: Tag,
    I: Indexes<T>,
    S: Origin,
    V: Service,
    M: Moments,
    R: Wait,
{
    let Some(queue) = cluster.queues.get(job.server.0 as usize) else {
        return Err(StopCause::Stray);
    };
    for _ in 0..cluster.max_pulls {
        if !take_turn(rt, cluster, queue, service, moments, job)? {
            return Ok(());
        }
    }
    Err(StopCause::Turns)
}

/// Pulls, and has what is granted served. Whether there may be more.
fn take_turn<T, I, S, V, M, R>(
    rt: &R,
    cluster: &Cluster<QueueBook<T, I, S>, AsOpened<S>, S>,
    queue: &ServerLock<T, I, S>,
    service: &V,
    moments: &M,
    job: &mut ServerJob<S>,
) -> Result<bool, StopCause>
where
    T: Tag,
    I: Indexes<T>,
    S: Origin,
    V: Service,
    M: Moments,
    R: Wait,
{
    match queue.pull_or_wait(rt, &mut job.pass, moments.now()) {
        Ok(pulled) => serve_pulled(rt, cluster, service, pulled, job),
        Err(fault) => Err(of_pull(fault)),
    }
}

/// Has what a pull granted served. Whether there may be more.
fn serve_pulled<B: Lasting, W: Witness<B>, S: Origin, V: Service, R: Wait>(
    rt: &R,
    cluster: &Cluster<B, W, S>,
    service: &V,
    pulled: Pulled,
    job: &mut ServerJob<S>,
) -> Result<bool, StopCause> {
    match pulled {
        Pulled::Returning {
            client,
            token,
            phase,
            cost,
            beyond: _,
        } => {
            let granted = Job {
                server: job.server,
                client,
                token,
                phase,
                cost,
            };
            complete(rt, cluster, service, &granted, job)?;
            Ok(true)
        }
        Pulled::Future(_) => Ok(true),
        Pulled::Nothing => Ok(false),
    }
}

/// Has a granted request served, and rings its client.
fn complete<B: Lasting, W: Witness<B>, S: Origin, V: Service, R: Wait>(
    rt: &R,
    cluster: &Cluster<B, W, S>,
    service: &V,
    granted: &Job,
    job: &mut ServerJob<S>,
) -> Result<(), StopCause> {
    let failed = service.serve(granted).is_err();
    let Some(place) = cluster.ids.get_index_of(&granted.client) else {
        return Err(StopCause::Stray);
    };
    if failed {
        count_failure(&mut job.failures, place);
    }
    notify_client(rt, &cluster.trackers, place, job)
}

/// Responds for the granted request to the client at a place, and rings at its door.
fn notify_client<S: Origin, R: Wait>(
    rt: &R,
    trackers: &[ClientLock<S>],
    place: usize,
    job: &mut ServerJob<S>,
) -> Result<(), StopCause> {
    let Some(tracker) = trackers.get(place) else {
        return Err(StopCause::Stray);
    };
    respond(rt, tracker, &mut job.pass)?;
    if let Some(ringer) = job.ringers.get_mut(place) {
        ringer.ring(rt, Ring::Completed);
    }
    Ok(())
}

/// Counts a failure of the client at a place.
fn count_failure(failures: &mut [u64], place: usize) {
    if let Some(count) = failures.get_mut(place) {
        *count = count.saturating_add(1);
    }
}

/// Responds for the request that was granted last at its client's tracker, which takes the unit of the grant.
fn respond<S: Origin, R: Wait>(
    rt: &R,
    tracker: &ClientLock<S>,
    pass: &mut WorkerPass<S>,
) -> Result<(), StopCause> {
    let Some(unit) = pass.take_unit() else {
        return Err(StopCause::Stray);
    };
    let Some(tills) = pass.grant_tills(unit.client(), unit.phase()) else {
        return Err(StopCause::Stray);
    };
    if !tills.holds(unit.cost()) {
        return Err(StopCause::Stray);
    }
    match tracker.respond(rt, unit, tills) {
        Ok(()) => Ok(()),
        Err(fault) => Err(of_entry(fault.cause)),
    }
}
