//! A server that runs for long, in memory that does not grow. Client threads stamp requests and queue them behind the server's
//! lock, workers serve what it grants, and an auditor releases what was recorded, segment by segment, and replays it. Two of the
//! four clients come later.
//!
//! `example_server [REQUESTS [MILLISECONDS]]` serves this number of requests of each client. With a number of milliseconds that is not 0
//! it writes how many events were replayed to standard error, at most as often as that.
#![tactic(auto)]

mod auditing;
mod opening;
mod requesting;
mod serving;
mod settling;
mod shared;

ghost use Rattle.std.specs.Prelude.{◌≡◌};

use crate::auditing::Auditor;
use crate::opening::{CLIENTS, Opened, PASSES, open};
use crate::requesting::Requester;
use crate::serving::Worker;
use crate::settling::settle;
use crate::shared::Shared;
use anyhow::Result;
use dmclock::locks::{BOOKS_PER_PAIR, BOOKS_PER_WORKER, Blank, Setup};
use example_threads::words::{Words, read_words};
use std::alloc::Global;
use std::io::Eprint;
use std::marker::Brand;
use std::rt::Clock;
use std::sync::Wait;
use std::thread;
use std::thread::Threads;
use std::time::Instant;

/// The books that the mint opens: those of each client, those of each pass, and the list of the queue's segments.
const BOOKS: u64 = BOOKS_PER_PAIR * CLIENTS as u64 + BOOKS_PER_WORKER * PASSES as u64 + 1;

/// Runs the clients' threads, and then closes the queue.
fn request_all<S: Setup + Send + Sync, R: Threads + Wait + Clock + Sync>(
    rt: &R,
    shared: &Shared<S>,
    requesters: &mut [Requester<S>],
) {
    let count = requesters.len();
    if count > 0 {
        thread::for_each_mut(
            rt,
            requesters,
            count,
            &|_, requester| {
                requester.run(rt, shared);
            },
        );
    }
    shared.close(rt);
}

/// Runs the workers' threads.
fn serve_all<S: Setup + Send + Sync, R: Threads + Wait + Clock + Sync>(
    rt: &R,
    shared: &Shared<S>,
    workers: &mut [Worker<S>],
) {
    let count = workers.len();
    if count > 0 {
        thread::for_each_mut(
            rt,
            workers,
            count,
            &|_, worker| {
                worker.run(rt, shared);
            },
        );
    }
}

/// Runs the threads of the clients and the workers until all requests are served, and then ends the auditor's.
fn run_all<S: Setup + Send + Sync, R: Threads + Wait + Clock + Sync>(
    rt: &R,
    shared: &Shared<S>,
    requesters: &mut [Requester<S>],
    workers: &mut [Worker<S>],
) {
    thread::join(
        rt,
        move || request_all(rt, shared, requesters),
        move || serve_all(rt, shared, workers),
    );
    shared.backlog.end(rt);
}

/// The first fault of a thread.
fn first_fault<S: Setup>(opened: &mut Opened<S>) -> Result<()> {
    for worker in opened.workers.iter_mut() {
        if let Some(fault) = worker.fault.take() {
            return Err(fault);
        }
    }
    for requester in opened.requesters.iter_mut() {
        if let Some(fault) = requester.fault.take() {
            return Err(fault);
        }
    }
    Ok(())
}

/// Serves all requests while the auditor replays. Returns the number of events.
fn serve_audited<S: Setup + Send + Sync, R: Threads + Wait + Clock + Eprint + Sync>(
    rt: &R,
    report: u64,
    opened: &mut Opened<S>,
) -> Result<u64> {
    let mut auditor = Auditor::new(opened.shared.alloc, &opened.shared)?;
    let lent = &mut auditor;
    let shared = &opened.shared;
    let requesters = opened.requesters.as_mut_slice();
    let workers = opened.workers.as_mut_slice();
    let (audited, ()) = thread::join(
        rt,
        move || lent.run(rt, shared, report),
        move || run_all(rt, shared, requesters, workers),
    );
    audited?;
    first_fault(opened)?;
    auditor.audit(rt, &opened.shared)?;
    Ok(auditor.event_count())
}

/// Runs the server. Returns the number of events, and that of the grants.
fn serve<S: Setup + Send + Sync, R: Threads + Wait + Clock + Eprint + Sync>(
    rt: &R,
    alloc: Global,
    words: Words,
    blank: Blank,
) -> Result<(u64, u64)>
    requires { blank.name ≡ S.name }
{
    let mut mint = blank.open::<S>();
    let mut opened = open::<S>(alloc, Instant::now(rt)?, &mut mint, words.requests)?;
    let events = serve_audited(rt, words.report, &mut opened)?;
    Ok((events, settle(alloc, opened)?))
}

fn main(rt: HostRuntime) -> Result<()> {
    let words = read_words(&rt)?;
    let (events, grants) = serve::<Brand, HostRuntime>(&rt, rt.alloc(), words, Blank::new(BOOKS))?;
    println!(&rt; "{CLIENTS} clients, {} requests of each", words.requests)?;
    println!(&rt; "{events} events replay")?;
    println!(&rt; "{grants} grants are settled")?;
    Ok(())
}
