//! The threads of a run: one for each worker, joined before their calls return.
ghost use Rattle.std.specs.Thread.{IsSend, IsSync};

use crate::bell::Ringer;
use crate::client_worker::{ClientJob, run_client};
use crate::cluster::Cluster;
use crate::moments::Moments;
use crate::origin::{AsOpened, Origin};
use crate::server_worker::{ServerJob, run_server, stop_all};
use crate::service::Service;
use dmc_book::book::QueueBook;
use dmc_heap::adaptive_index::HeapIndexes;
use dmc_ledger::setup::Setup;
use dmc_tag::tag::Tag;
use std::sync::Wait;
use std::thread;
use std::thread::Threads;

/// The clients' workers, and the ringers at their doors of the thread that starts the workers.
#[derive(Drop)]
pub(crate) struct Senders<S: Setup> {
    pub(crate) jobs: Vec<ClientJob<S>>,
    pub(crate) ringers: Vec<Ringer>,
}

/// Runs the clients' workers, each in a thread. A worker that has none keeps its job as it was, and then the others are to stop.
fn run_clients<T, S, M, R>(
    rt: &R,
    cluster: &Cluster<QueueBook<T, HeapIndexes, S>, AsOpened<S>, S>,
    moments: &M,
    jobs: &mut Vec<ClientJob<S>>,
    ringers: Vec<Ringer>,
) -> Vec<Ringer>
where
    T: Tag + Send + Sync,
    S: Origin + Send + Sync,
    M: Moments + Sync,
    R: Threads + Wait + Sync,
{
    thread::scope(thread::scope_env(), rt, |scope| {
        let mut ringers = ringers;
        let mut lacks_one = false;
        for job in jobs.iter_mut() {
            lacks_one |= scope
                .spawn(move || run_client(rt, cluster, moments, job))
                .is_err();
        }
        if lacks_one {
            stop_all(rt, &mut ringers);
        }
        ringers
    })
}

/// Runs the clients' workers, and then closes every queue.
fn send_all<T, S, M, R>(
    rt: &R,
    cluster: &Cluster<QueueBook<T, HeapIndexes, S>, AsOpened<S>, S>,
    moments: &M,
    senders: Senders<S>,
) -> Vec<ClientJob<S>>
where
    T: Tag + Send + Sync,
    S: Origin + Send + Sync,
    M: Moments + Sync,
    R: Threads + Wait + Sync,
{
    let Senders { mut jobs, ringers } = senders;
    let _ = run_clients(rt, cluster, moments, &mut jobs, ringers);
    for queue in &cluster.queues {
        queue.close(rt);
    }
    jobs
}

/// Runs the servers' workers, each in a thread, and within them the clients'. Once these have ended, every queue is closed. The
/// clients' jobs come back.
pub(crate) fn run_all<T, S, V, M, R>(
    rt: &R,
    cluster: &Cluster<QueueBook<T, HeapIndexes, S>, AsOpened<S>, S>,
    service: &V,
    moments: &M,
    servers: &mut Vec<ServerJob<S>>,
    senders: Senders<S>,
) -> Vec<ClientJob<S>>
where
    T: Tag + Send + Sync,
    S: Origin + Send + Sync,
    V: Service + Sync,
    M: Moments + Sync,
    R: Threads + Wait + Sync,
{
    thread::scope(
        thread::scope_env(),
        rt,
        |scope| -> Vec<ClientJob<S>>
            requires { IsSend T.row × IsSync T.row × IsSend S.row × IsSync S.row × IsSync V.row × IsSync M.row × IsSync R.row }
        {
            let mut senders = senders;
            let mut lacks_one = false;
            for job in servers.iter_mut() {
                lacks_one |= scope
                    .spawn(move || run_server(rt, cluster, service, moments, job))
                    .is_err();
            }
            if lacks_one {
                stop_all(rt, &mut senders.ringers);
            }
            send_all(rt, cluster, moments, senders)
        },
    )
}
