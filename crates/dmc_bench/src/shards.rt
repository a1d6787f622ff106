//! A server of shards that threads share.
ghost use Rattle.std.specs.Prelude.{◌≡◌, ◌<◌, ◌≤◌, IfOk};
ghost use Rattle.dmc_types.specs.Limits.{max_books};

use crate::cluster::{book_count, config_and_workers};
use crate::fault::Fault;
use crate::load::Load;
use crate::watch::{add_since, print, start};
use dmc_book::book::QueueBook;
use dmc_book::pass::WorkerPass;
use dmc_heap::tick_indexes::TickIndexes;
use dmc_index::index::Indexes;
use dmc_ledger::desk::ClientDesk;
use dmc_ledger::mint::{Blank, Mint};
use dmc_ledger::setup::Setup;
use dmc_qlock::lock::QueueLock;
use dmc_sharded::book::ArrivalBook;
use dmc_sharded::lock::ArrivalLock;
use dmc_sharded::server::ShardedServer;
use dmc_tag::reply::Pulled;
use dmc_tag::tag::Tag;
use dmc_tick::tick::TickTag;
use dmc_tracker::tracker::ServiceTracker;
use dmc_types::command::Command;
use dmc_types::config::Counting;
use dmc_types::cost::Cost;
use dmc_types::ids::{ClientId, ServerId, Token};
use dmc_types::info::ClientInfo;
use dmc_types::limits::{MAX_COMPLETIONS, MAX_EVENTS, MAX_SERVERS};
use dmc_types::moment::Moment;
use std::alloc::Global;
use std::sync::Wait;
use std::thread;
use std::thread::Threads;

/// The one server, as the clients' trackers know it.
const SERVER: ServerId = ServerId(0);

/// The most books of a set-up.
const MOST_BOOKS: u64 = 1 << 32;

/// One less than the turns of a job until it releases its shard's events, of a power of two.
const TURNS_OF_SEGMENT: u32 = (1 << 14) - 1;

/// A server of shards.
type Server<T, I, S> = ShardedServer<QueueBook<T, I, S>>;

/// A client with its tracker and its book, the shard to which its requests go, and passes of each shard; how many requests it makes,
/// and how many were granted.
#[derive(Drop)]
struct Job<S: Setup> {
    shard: ServerId,
    passes: Vec<WorkerPass<S>>,
    arrivals: ArrivalLock<S>,
    tracker: ServiceTracker,
    requests: u32,
    granted: u32,
    // Two cache lines between this job and the next, which another thread writes.
    apart: [u64; 16],
}

/// How many shards the load has.
fn shards_of(load: Load) -> Result<u32, Fault> {
    match load.limit {
        Some(shards) if shards > 0 && shards <= MAX_SERVERS => Ok(shards),
        _ => Err(Fault::Usage),
    }
}

/// The number of books that the shards' locks and the clients take.
pub fn shard_book_count(load: Load) -> Result<u64, Fault>
    ensures some { IfOk result (λ books. 0 < books) }
    ensures limit { IfOk result (λ books. books ≤ max_books) }
{
    let shards = u64::from(shards_of(load)?);
    let books = shards.saturating_mul(book_count(load.clients, load.clients)?);
    if books == 0 || books > MOST_BOOKS {
        return Err(Fault::Usage);
    }
    Ok(books)
}

/// As many threads as clients share the rounds: each stamps a request of its own client, lets it come in at one of the shards, and
/// pulls one there. Returns how many requests were granted.
pub fn serve_shards<S: Setup + Send + Sync, R: Threads + Wait + Sync>(
    rt: &HostRuntime,
    threads: &R,
    load: Load,
    blank: Blank,
) -> Result<u64, Fault>
    requires { blank.name ≡ S.name }
{
    let mut mint = blank.open::<S>();
    let (server, mut jobs) = open_shards::<TickTag, TickIndexes, S, R>(
        rt.alloc(),
        threads,
        &mut mint,
        load,
    )?;
    let served = serve_jobs(rt, threads, &server, jobs.as_mut_slice(), load);
    drop(server);
    served
}

/// The server, and a job for each client, which is admitted and registered at each shard.
fn open_shards<T: Tag, I: Indexes<T>, S: Setup, R: Wait>(
    alloc: Global,
    waiter: &R,
    mint: &mut Mint<S>,
    load: Load,
) -> Result<(Server<T, I, S>, Vec<Job<S>>), Fault> {
    let (server, mut passes) = open_server::<T, I, S>(alloc, mint, load)?;
    let mut jobs = Vec::new(alloc);
    for number in 0..load.clients {
        let of_client = take_passes(alloc, passes.as_mut_slice())?;
        let job = open_job(alloc, waiter, mint, &server, load, number, of_client)?;
        jobs.push(job)?;
    }
    for job in jobs.iter_mut() {
        extend_all(alloc, waiter, &server, job.passes.as_mut_slice())?;
    }
    Ok((server, jobs))
}

/// The server without clients, and the passes of each shard.
fn open_server<T: Tag, I: Indexes<T>, S: Setup>(
    alloc: Global,
    mint: &mut Mint<S>,
    load: Load,
) -> Result<(Server<T, I, S>, Vec<Vec<WorkerPass<S>>>), Fault> {
    let mut locks = Vec::new(alloc);
    let mut passes = Vec::new(alloc);
    for shard in 0..shards_of(load)? {
        let (lock, of_shard) = open_shard::<T, I, S>(alloc, mint, ServerId(shard), load.clients)?;
        locks.push(lock)?;
        passes.push(of_shard)?;
    }
    match ShardedServer::new(locks) {
        Ok(server) => Ok((server, passes)),
        Err(_) => Err(Fault::Usage),
    }
}

/// The lock of a shard without clients, and the passes of its workers.
fn open_shard<T: Tag, I: Indexes<T>, S: Setup>(
    alloc: Global,
    mint: &mut Mint<S>,
    shard: ServerId,
    count: u32,
) -> Result<(QueueLock<T, I, S>, Vec<WorkerPass<S>>), Fault> {
    let (config, workers) = config_and_workers(alloc, count)?;
    let desks = Vec::new(alloc);
    match QueueBook::new(
        alloc,
        config,
        shard,
        workers.as_slice(),
        desks,
        mint,
        MAX_EVENTS,
    ) {
        Ok((book, passes)) => Ok((QueueLock::new(book), passes)),
        Err(_) => Err(Fault::Failed),
    }
}

/// Takes a pass of each shard.
fn take_passes<S: Setup>(
    alloc: Global,
    passes: &mut [Vec<WorkerPass<S>>],
) -> Result<Vec<WorkerPass<S>>, Fault> {
    let mut taken = Vec::new(alloc);
    for of_shard in passes.iter_mut() {
        let Some(pass) = of_shard.pop() else {
            return Err(Fault::Usage);
        };
        taken.push(pass)?;
    }
    Ok(taken)
}

/// A client that is admitted and registered at each shard.
fn open_job<T: Tag, I: Indexes<T>, S: Setup, R: Wait>(
    alloc: Global,
    waiter: &R,
    mint: &mut Mint<S>,
    server: &Server<T, I, S>,
    load: Load,
    number: u32,
    passes: Vec<WorkerPass<S>>,
) -> Result<Job<S>, Fault> {
    let mut passes = passes;
    let client = ClientId(number);
    let shards = server.shard_count();
    let Ok((book, desks)) = ArrivalBook::open(alloc, mint, client, shards, MAX_COMPLETIONS) else {
        return Err(Fault::Failed);
    };
    for (desk, pass) in desks.into_iter().zip(passes.iter_mut()) {
        admit(waiter, server, client, desk, pass)?;
    }
    let Ok(tracker) = ServiceTracker::new(alloc, 1, MAX_COMPLETIONS, Counting::All) else {
        return Err(Fault::Failed);
    };
    Ok(Job {
        shard: ServerId(number.checked_rem(shards).unwrap_or(0)),
        passes,
        arrivals: ArrivalLock::new(book),
        tracker,
        requests: load.rounds.checked_div(load.clients).unwrap_or(0),
        granted: 0,
        apart: [0; 16],
    })
}

/// Admits a client at the shard of the desk, and registers it there.
fn admit<T: Tag, I: Indexes<T>, S: Setup, R: Wait>(
    rt: &R,
    server: &Server<T, I, S>,
    client: ClientId,
    desk: ClientDesk<S>,
    pass: &mut WorkerPass<S>,
) -> Result<(), Fault> {
    let Some(queue) = server.shard(desk.server) else {
        return Err(Fault::Usage);
    };
    let info = ClientInfo::new(None, 1, None)?;
    let at = Moment::zero();
    if queue.admit(rt, desk).is_err() {
        return Err(Fault::Failed);
    }
    match queue.run(rt, pass, Command::Register { client, info, at }) {
        Ok(_) => Ok(()),
        Err(_) => Err(Fault::Failed),
    }
}

/// Extends a client's passes to all clients' desks.
fn extend_all<T: Tag, I: Indexes<T>, S: Setup, R: Wait>(
    alloc: Global,
    rt: &R,
    server: &Server<T, I, S>,
    passes: &mut [WorkerPass<S>],
) -> Result<(), Fault> {
    for (shard, pass) in (0..server.shard_count()).zip(passes.iter_mut()) {
        let Some(queue) = server.shard(ServerId(shard)) else {
            return Err(Fault::Usage);
        };
        if queue.extend(rt, alloc, pass).is_err() {
            return Err(Fault::Failed);
        }
    }
    Ok(())
}

/// Runs all jobs.
fn serve_jobs<S: Setup + Send + Sync, R: Threads + Wait + Sync>(
    rt: &HostRuntime,
    threads: &R,
    server: &Server<TickTag, TickIndexes, S>,
    jobs: &mut [Job<S>],
    load: Load,
) -> Result<u64, Fault> {
    let begun = start(rt)?;
    work_all(threads, server, jobs);
    print(rt, "request", load.rounds, add_since(rt, begun, 0)?)?;
    let mut granted: u64 = 0;
    for job in jobs.iter() {
        granted = granted.saturating_add(u64::from(job.granted));
    }
    Ok(granted)
}

/// Runs each job in a thread of its own.
fn work_all<S: Setup + Send + Sync, R: Threads + Wait + Sync>(
    rt: &R,
    server: &Server<TickTag, TickIndexes, S>,
    jobs: &mut [Job<S>],
) {
    let count = jobs.len();
    if count > 0 {
        thread::for_each_mut(rt, jobs, count, &|_, job| work(rt, server, job));
    }
}

/// Makes the requests of a job, and pulls one after each. As a server in service does, it releases the shard's events from time to time.
fn work<T: Tag, I: Indexes<T>, S: Setup, R: Wait>(
    rt: &R,
    server: &Server<T, I, S>,
    job: &mut Job<S>,
) {
    for turn in 0..job.requests {
        if take_turn(rt, server, job).is_err() {
            return;
        }
        if turn & TURNS_OF_SEGMENT == TURNS_OF_SEGMENT {
            release(rt, server, job.shard);
        }
    }
}

/// Releases a shard's events as a segment, which is dropped.
fn release<T: Tag, I: Indexes<T>, S: Setup, R: Wait>(
    rt: &R,
    server: &Server<T, I, S>,
    shard: ServerId,
) {
    if let Some(queue) = server.shard(shard) {
        drop(queue.rotate(rt));
    }
}

/// Makes one request at the job's shard, and pulls one there.
fn take_turn<T: Tag, I: Indexes<T>, S: Setup, R: Wait>(
    rt: &R,
    server: &Server<T, I, S>,
    job: &mut Job<S>,
) -> Result<(), Fault> {
    let at = Moment::zero();
    let shard = job.shard;
    let Ok(params) = job.tracker.get_req_params(SERVER, Cost::ONE) else {
        return Err(Fault::Failed);
    };
    let Some(pass) = job.passes.get_mut(shard.0 as usize) else {
        return Err(Fault::Usage);
    };
    let token = Token(job.arrivals.client().0);
    if server
        .submit(rt, &job.arrivals, pass, shard, params, token, at)
        .is_err()
    {
        return Err(Fault::Failed);
    }
    let Some(queue) = server.shard(shard) else {
        return Err(Fault::Usage);
    };
    if let Ok(Pulled::Returning { .. }) = queue.pull(rt, pass, at) {
        job.granted = job.granted.saturating_add(1);
    }
    Ok(())
}
