//! A queue's lock that threads share.
ghost use Rattle.std.specs.Prelude.{◌≡◌};

use crate::cluster::{Client, Clients, open_clients, open_lock, pull, register_all, stamp, submit};
use crate::fault::Fault;
use crate::load::Load;
use crate::watch::{add_since, print, start};
use dmc_book::pass::WorkerPass;
use dmc_heap::tick_indexes::TickIndexes;
use dmc_index::index::Indexes;
use dmc_ledger::mint::{Blank, Mint};
use dmc_ledger::setup::Setup;
use dmc_qlock::lock::QueueLock;
use dmc_tag::tag::Tag;
use dmc_tick::tick::TickTag;
use dmc_types::moment::Moment;
use std::alloc::Global;
use std::sync::Wait;
use std::thread;
use std::thread::Threads;

/// A worker's pass, a client whose requests the worker submits, how many of them, and how many it was granted.
#[derive(Drop)]
struct Job<S: Setup> {
    pass: WorkerPass<S>,
    client: Client<S>,
    requests: u32,
    granted: u32,
}

/// As many threads as clients share the rounds: each stamps a request of its own client, submits it, and pulls one. Returns how
/// many requests were granted.
pub fn serve_shared<S: Setup + Send + Sync, R: Threads + Wait + Sync>(
    rt: &HostRuntime,
    threads: &R,
    load: Load,
    blank: Blank,
) -> Result<u64, Fault>
    requires { blank.name ≡ S.name }
{
    let mut mint = blank.open::<S>();
    let (lock, mut jobs) = open_jobs::<TickTag, TickIndexes, S, R>(
        rt.alloc(),
        threads,
        &mut mint,
        load,
    )?;
    let served = serve_jobs(rt, threads, &lock, jobs.as_mut_slice(), load);
    drop(lock);
    served
}

/// The lock of a server, at which the clients are registered, and a job for each of its workers.
fn open_jobs<T: Tag, I: Indexes<T>, S: Setup, R: Wait>(
    alloc: Global,
    waiter: &R,
    mint: &mut Mint<S>,
    load: Load,
) -> Result<(QueueLock<T, I, S>, Vec<Job<S>>), Fault> {
    let Clients { desks, clients } = open_clients(alloc, mint, load.clients)?;
    let (lock, passes) = open_lock::<T, I, S>(alloc, mint, desks, load.clients)?;
    let requests = load.rounds.checked_div(load.clients).unwrap_or(0);
    let mut jobs = jobs_of(alloc, passes, clients, requests)?;
    register(waiter, &lock, jobs.as_mut_slice(), load.clients)?;
    Ok((lock, jobs))
}

/// Runs all jobs.
fn serve_jobs<S: Setup + Send + Sync, R: Threads + Wait + Sync>(
    rt: &HostRuntime,
    threads: &R,
    lock: &QueueLock<TickTag, TickIndexes, S>,
    jobs: &mut [Job<S>],
    load: Load,
) -> Result<u64, Fault> {
    let begun = start(rt)?;
    work_all(threads, lock, jobs);
    print(rt, "request", load.rounds, add_since(rt, begun, 0)?)?;
    Ok(granted_in(jobs))
}

/// A job for each worker.
fn jobs_of<S: Setup>(
    alloc: Global,
    passes: Vec<WorkerPass<S>>,
    clients: Vec<Client<S>>,
    requests: u32,
) -> Result<Vec<Job<S>>, Fault> {
    let mut jobs = Vec::new(alloc);
    let mut passes = passes;
    let mut clients = clients;
    while let Some(pass) = passes.pop() {
        let Some(client) = clients.pop() else {
            return Err(Fault::Usage);
        };
        let job = Job {
            pass,
            client,
            requests,
            granted: 0,
        };
        jobs.push(job)?;
    }
    Ok(jobs)
}

/// The first worker registers all clients.
fn register<T: Tag, I: Indexes<T>, S: Setup, R: Wait>(
    rt: &R,
    lock: &QueueLock<T, I, S>,
    jobs: &mut [Job<S>],
    count: u32,
) -> Result<(), Fault> {
    let Some(job) = jobs.first_mut() else {
        return Err(Fault::Usage);
    };
    register_all(rt, lock, &mut job.pass, count)
}

/// Runs each job in a thread of its own.
fn work_all<S: Setup + Send + Sync, R: Threads + Wait + Sync>(
    rt: &R,
    lock: &QueueLock<TickTag, TickIndexes, S>,
    jobs: &mut [Job<S>],
) {
    let count = jobs.len();
    if count > 0 {
        thread::for_each_mut(rt, jobs, count, &|_, job| work(rt, lock, job));
    }
}

/// Submits and pulls the requests of a job, by turns.
fn work<T: Tag, I: Indexes<T>, S: Setup, R: Wait>(
    rt: &R,
    lock: &QueueLock<T, I, S>,
    job: &mut Job<S>,
) {
    for _ in 0..job.requests {
        if take_turn(rt, lock, job).is_err() {
            return;
        }
    }
}

/// Submits one request, and pulls one.
fn take_turn<T: Tag, I: Indexes<T>, S: Setup, R: Wait>(
    rt: &R,
    lock: &QueueLock<T, I, S>,
    job: &mut Job<S>,
) -> Result<(), Fault> {
    let at = Moment::zero();
    stamp(&mut job.client)?;
    submit(rt, lock, &mut job.pass, &mut job.client, at)?;
    if pull(rt, lock, &mut job.pass, at).is_some() {
        job.granted = job.granted.saturating_add(1);
    }
    Ok(())
}

/// The number of requests that the jobs were granted.
fn granted_in<S: Setup>(jobs: &[Job<S>]) -> u64 {
    let mut granted: u64 = 0;
    for job in jobs {
        granted = granted.saturating_add(u64::from(job.granted));
    }
    granted
}
