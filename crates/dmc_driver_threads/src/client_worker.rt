//! The worker of a client: it sends the client's requests.
ghost use Rattle.std.specs.Prelude.{◌≡◌, IfOk};
ghost use Rattle.dmc_ledger.specs.Bundles.{Covers, stamp_holdings};
ghost use Rattle.dmc_scene.specs.SceneValue.{cost_at};

use crate::bell::{Doorbell, Ring};
use crate::cause::{of_entry, of_submit};
use crate::cluster::Cluster;
use crate::moments::Moments;
use crate::origin::{AsOpened, ClientLock, Origin, ServerLock};
use dmc_book::book::QueueBook;
use dmc_book::pass::WorkerPass;
use dmc_index::index::Indexes;
use dmc_ledger::bundle::StampTills;
use dmc_ledger::setup::Setup;
use dmc_ledger::stamp::Stamp;
use dmc_scene::client::SceneClient;
use dmc_settle::report::StopCause;
use dmc_tag::tag::Tag;
use dmc_tlock::pass::ClientPass;
use dmc_types::ids::{ServerId, Token};
use dmc_types::moment::Moment;
use std::sync::Wait;

/// What a client's worker has of its own.
#[derive(Drop)]
pub(crate) struct ClientJob<S: Setup> {
    /// Its place among the clients.
    pub(crate) place: usize,
    /// The server of each of its requests.
    pub(crate) plan: Vec<ServerId>,
    /// How many requests it sends, what they cost, and how many of them may be outstanding.
    pub(crate) client: SceneClient,
    pub(crate) tills: ClientPass<S>,
    /// Its pass at server 0, 1, ..
    pub(crate) passes: Vec<WorkerPass<S>>,
    pub(crate) bell: Doorbell,
    /// Why it stopped, if it did.
    pub(crate) stop: Option<StopCause>,
}

/// The work of a client's worker.
pub(crate) fn run_client<T, I, S, M, R>(
    rt: &R,
    cluster: &Cluster<QueueBook<T, I, S>, AsOpened<S>, S>,
    moments: &M,
    job: &mut ClientJob<S>,
)
where
    T: Tag,
    I: Indexes<T>,
    S: Origin,
    M: Moments,
    R: Wait,
{
    job.stop = send_all(rt, cluster, moments, job).err();
}

/// Sends the requests, each with its number as its token and with its cost by the scene. It waits for a ring if the window is
/// full.
fn send_all<T, I, S, M, R>(
    rt: &R,
    cluster: &Cluster<QueueBook<T, I, S>, AsOpened<S>, S>,
    moments: &M,
    job: &mut ClientJob<S>,
) -> Result<(), StopCause>
where
    T: Tag,
    I: Indexes<T>,
    S: Origin,
    M: Moments,
    R: Wait,
{
    let mut outstanding = 0;
    for number in 0..job.client.requests() {
        if outstanding < job.client.window() {
            outstanding += 1;
        } else {
            hear_completed(rt, &mut job.bell)?;
        }
        send(rt, cluster, moments, job, number)?;
    }
    Ok(())
}

/// Waits until one of its requests is completed.
fn hear_completed<R: Wait>(rt: &R, bell: &mut Doorbell) -> Result<(), StopCause> {
    match bell.hear(rt) {
        Ring::Completed => Ok(()),
        Ring::Stop => Err(StopCause::Rung),
    }
}

/// A request that is sent: whose, its number, and where to.
#[derive(Drop)]
struct Request {
    client: SceneClient,
    number: u32,
    server: ServerId,
}

/// Sends the request with this number to the server that is planned.
fn send<T, I, S, M, R>(
    rt: &R,
    cluster: &Cluster<QueueBook<T, I, S>, AsOpened<S>, S>,
    moments: &M,
    job: &mut ClientJob<S>,
    number: u32,
) -> Result<(), StopCause>
where
    T: Tag,
    I: Indexes<T>,
    S: Origin,
    M: Moments,
    R: Wait,
{
    let Some(server) = job.plan.get(number as usize) else {
        return Err(StopCause::Stray);
    };
    let server = *server;
    let index = server.0 as usize;
    let Some(tracker) = cluster.trackers.get(job.place) else {
        return Err(StopCause::Stray);
    };
    let Some(queue) = cluster.queues.get(index) else {
        return Err(StopCause::Stray);
    };
    let Some(pass) = job.passes.get_mut(index) else {
        return Err(StopCause::Stray);
    };
    let Some(tills) = job.tills.tills(server) else {
        return Err(StopCause::Stray);
    };
    let request = Request {
        client: job.client,
        number,
        server,
    };
    submit(rt, tracker, queue, pass, tills, &request, moments.now())
}

/// Stamps a request at its client's tracker, and submits it at the server's queue.
fn submit<T: Tag, I: Indexes<T>, S: Origin, R: Wait>(
    rt: &R,
    tracker: &ClientLock<S>,
    queue: &ServerLock<T, I, S>,
    pass: &mut WorkerPass<S>,
    tills: &mut StampTills<S>,
    request: &Request,
    at: Moment,
) -> Result<(), StopCause> {
    let stamp = stamp(rt, tracker, tills, request)?;
    let token = Token(request.number);
    match queue.submit(rt, pass, tills, stamp, token, at) {
        Ok(_) => Ok(()),
        Err(fault) => Err(of_submit(fault.cause)),
    }
}

/// Stamps a request with its cost by the scene.
fn stamp<S: Origin, R: Wait>(
    rt: &R,
    tracker: &ClientLock<S>,
    tills: &mut StampTills<S>,
    request: &Request,
) -> Result<Stamp, StopCause>
    ensures server { IfOk result (λ stamp. stamp.server ≡ request.now.server.0) }
    ensures cost { IfOk result (λ stamp. stamp.params.cost ≡ cost_at request.now.client.costs request.now.number) }
    ensures covered { IfOk result (λ stamp. Covers (stamp_holdings tills.new) stamp.params) }
{
    let cost = request.client.cost(request.number);
    match tracker.stamp(rt, request.server, cost, tills) {
        Ok(stamp) => Ok(stamp),
        Err(fault) => Err(of_entry(fault)),
    }
}
