//! A server of many cores that runs for long, in memory that does not grow. Its four shards each have a queue behind a lock of its
//! own, two workers and an auditor. Clients' requests bring the stamps of their trackers, nine of ten for one shard, and their rates
//! hold across the shards. The auditor releases what the queue recorded, segment by segment, and replays it.
//!
//! `example_shards [REQUESTS [MILLISECONDS]]` serves this number of requests of each client. With a number of milliseconds that is not 0
//! it writes how many events were replayed to standard error, at most as often as that.
#![tactic(auto)]

mod auditing;
mod opening;
mod requesting;
mod serving;
mod settling;
mod shared;
mod sums;

ghost use Rattle.std.specs.Prelude.{◌≡◌};

use crate::auditing::Auditor;
use crate::opening::{BOOKS, CLIENTS, Opened, open};
use crate::requesting::Requester;
use crate::serving::Worker;
use crate::settling::settle;
use crate::shared::{SHARDS, Shared};
use anyhow::Result;
use dmclock::locks::{Blank, Setup};
use example_threads::words::{Words, read_words};
use std::alloc::Global;
use std::io::Eprint;
use std::marker::Brand;
use std::rt::Clock;
use std::sync::Wait;
use std::thread;
use std::thread::Threads;
use std::time::Instant;

/// Runs the clients' threads, and then closes the server.
fn request_all<S: Setup + Send + Sync, R: Threads + Wait + Clock + Sync>(
    rt: &R,
    shared: &Shared<S>,
    requesters: &mut [Requester<S>],
) {
    let count = requesters.len();
    if count > 0 {
        thread::for_each_mut(
            rt,
            requesters,
            count,
            &|_, requester| {
                requester.run(rt, shared);
            },
        );
    }
    shared.close(rt);
}

/// Runs the workers' threads.
fn serve_all<S: Setup + Send + Sync, R: Threads + Wait + Clock + Sync>(
    rt: &R,
    shared: &Shared<S>,
    workers: &mut [Worker<S>],
) {
    let count = workers.len();
    if count > 0 {
        thread::for_each_mut(
            rt,
            workers,
            count,
            &|_, worker| {
                worker.run(rt, shared);
            },
        );
    }
}

/// Runs the threads of the clients and the workers until all requests are served, and then ends the auditors'.
fn run_all<S: Setup + Send + Sync, R: Threads + Wait + Clock + Sync>(
    rt: &R,
    shared: &Shared<S>,
    requesters: &mut [Requester<S>],
    workers: &mut [Worker<S>],
) {
    thread::join(
        rt,
        move || request_all(rt, shared, requesters),
        move || serve_all(rt, shared, workers),
    );
    shared.end_backlogs(rt);
}

/// Runs the auditors' threads.
fn audit_all<S: Setup + Send + Sync, R: Threads + Wait + Clock + Eprint + Sync>(
    rt: &R,
    shared: &Shared<S>,
    auditors: &mut [Auditor],
    report: u64,
) {
    let count = auditors.len();
    if count > 0 {
        thread::for_each_mut(
            rt,
            auditors,
            count,
            &|_, auditor| {
                auditor.run(rt, shared, report);
            },
        );
    }
}

/// The first fault of a thread. A client's is last, since the server is closed once another thread fails.
fn first_fault<S: Setup>(opened: &mut Opened<S>) -> Result<()> {
    for auditor in opened.auditors.iter_mut() {
        if let Some(fault) = auditor.fault.take() {
            return Err(fault);
        }
    }
    for worker in opened.workers.iter_mut() {
        if let Some(fault) = worker.fault.take() {
            return Err(fault);
        }
    }
    for requester in opened.requesters.iter_mut() {
        if let Some(fault) = requester.fault.take() {
            return Err(fault);
        }
    }
    Ok(())
}

/// Serves all requests while the auditors replay. Returns the number of events.
fn serve_audited<S: Setup + Send + Sync, R: Threads + Wait + Clock + Eprint + Sync>(
    rt: &R,
    report: u64,
    opened: &mut Opened<S>,
) -> Result<u64> {
    let shared = &opened.shared;
    let requesters = opened.requesters.as_mut_slice();
    let workers = opened.workers.as_mut_slice();
    let auditors = opened.auditors.as_mut_slice();
    thread::join(
        rt,
        move || audit_all(rt, shared, auditors, report),
        move || run_all(rt, shared, requesters, workers),
    );
    first_fault(opened)?;
    Ok(opened.shared.add_replayed(rt, 0))
}

/// Runs the server. Returns the number of events, and that of the grants.
fn serve<S: Setup + Send + Sync, R: Threads + Wait + Clock + Eprint + Sync>(
    rt: &R,
    alloc: Global,
    words: Words,
    blank: Blank,
) -> Result<(u64, u64)>
    requires { blank.name ≡ S.name }
{
    let mut mint = blank.open::<S>();
    let start = Instant::now(rt)?;
    let mut opened = open(rt, alloc, start, &mut mint, words.requests)?;
    let events = serve_audited(rt, words.report, &mut opened)?;
    let grants = settle(alloc, opened)?;
    Ok((events, grants))
}

fn main(rt: HostRuntime) -> Result<()> {
    let words = read_words(&rt)?;
    let (events, grants) = serve::<Brand, HostRuntime>(&rt, rt.alloc(), words, Blank::new(BOOKS))?;
    println!(&rt;
        "{SHARDS} shards, {CLIENTS} clients, {} requests of each",
        words.requests
    )?;
    println!(&rt; "{events} events replay")?;
    println!(&rt; "{grants} grants are settled")?;
    println!(&rt; "the counts of each client agree at its trackers and at {SHARDS} shards")?;
    Ok(())
}
