//! The same requests through a lock over sorted vectors and through one over heaps.
ghost use Rattle.std.specs.Prelude.{◌≡◌};

use crate::calls::{must_register, pull, respond, submit};
use crate::setup::{Client, Clients, TWO, open, open_clients};
use dmc_book::pass::WorkerPass;
use dmc_heap::tick_indexes::TickIndexes;
use dmc_index::index::Indexes;
use dmc_ledger::mint::{Blank, Mint};
use dmc_ledger::setup::Setup;
use dmc_qlock::lock::QueueLock;
use dmc_tag::reply::Pulled;
use dmc_tests_setup::opening::{LONG, ONE, SEVEN, ZERO, open_book, wait_config};
use dmc_tick::tick::TickTag;
use std::alloc::Global;
use std::marker::Brand;
use std::sync::Wait;
use std::test::Fail;

/// Pulls a request, and responds to its client's tracker: the token.
fn serve<I: Indexes<TickTag>, S: Setup, R: Wait>(
    rt: &R,
    lock: &QueueLock<TickTag, I, S>,
    pass: &mut WorkerPass<S>,
    one: &mut Client<S>,
    two: &mut Client<S>,
) -> Result<u32, Fail> {
    let Pulled::Returning { client, token, .. } = pull(rt, lock, pass)? else {
        return Err(Fail::new("a request that is granted"));
    };
    let served = if client == ONE { one } else { two };
    respond(pass, served)?;
    Ok(token.0)
}

/// Three rounds: each client queues a request, the first its tokens from 0 on and the second from 10 on, and one is served.
fn serve_rounds<I: Indexes<TickTag>, S: Setup, R: Wait>(
    rt: &R,
    lock: &QueueLock<TickTag, I, S>,
    pass: &mut WorkerPass<S>,
    one: &mut Client<S>,
    two: &mut Client<S>,
) -> Result<[u32; 3], Fail> {
    let mut tokens = [0, 1, 2];
    for token in &mut tokens {
        submit(rt, lock, pass, one, *token)?;
        submit(rt, lock, pass, two, token.saturating_add(10))?;
        *token = serve(rt, lock, pass, one, two)?;
    }
    Ok(tokens)
}

/// Serves the three requests that are left.
fn serve_rest<I: Indexes<TickTag>, S: Setup, R: Wait>(
    rt: &R,
    lock: &QueueLock<TickTag, I, S>,
    pass: &mut WorkerPass<S>,
    one: &mut Client<S>,
    two: &mut Client<S>,
) -> Result<[u32; 3], Fail> {
    let mut tokens = [0; 3];
    for token in &mut tokens {
        *token = serve(rt, lock, pass, one, two)?;
    }
    Ok(tokens)
}

/// Registers both clients, and serves them.
fn play<I: Indexes<TickTag>, S: Setup, R: Wait>(
    rt: &R,
    lock: &QueueLock<TickTag, I, S>,
    pass: &mut WorkerPass<S>,
    one: &mut Client<S>,
    two: &mut Client<S>,
) -> Result<[[u32; 3]; 2], Fail> {
    must_register(rt, lock, pass, ONE, None)?;
    must_register(rt, lock, pass, TWO, None)?;
    let rounds = serve_rounds(rt, lock, pass, one, two)?;
    Ok([rounds, serve_rest(rt, lock, pass, one, two)?])
}

/// What a lock over sorted vectors grants.
fn over_lists<S: Setup, R: Wait>(
    rt: &R,
    alloc: Global,
    mint: &mut Mint<S>,
) -> Result<[[u32; 3]; 2], Fail> {
    let mut opened = open(alloc, mint, &[SEVEN], 99)?;
    match opened.passes.first_mut() {
        Some(pass) => play(rt, &opened.lock, pass, &mut opened.one, &mut opened.two),
        None => Err(Fail::new("a pass for the worker")),
    }
}

/// What a lock over heaps grants.
fn over_heaps<S: Setup, R: Wait>(
    rt: &R,
    alloc: Global,
    mint: &mut Mint<S>,
) -> Result<[[u32; 3]; 2], Fail> {
    let config = wait_config(LONG)?;
    let Clients {
        desks,
        mut one,
        mut two,
    } = open_clients(alloc, mint)?;
    let (book, mut passes) = open_book::<TickIndexes, S>(
        alloc,
        config,
        ZERO,
        mint,
        desks,
        &[SEVEN],
        99,
    )?;
    let lock = QueueLock::new(book);
    match passes.first_mut() {
        Some(pass) => play(rt, &lock, pass, &mut one, &mut two),
        None => Err(Fail::new("a pass for the worker")),
    }
}

/// What both locks grant.
fn both<S: Setup, R: Wait>(
    rt: &R,
    alloc: Global,
    blank: Blank,
) -> Result<([[u32; 3]; 2], [[u32; 3]; 2]), Fail>
    requires { blank.name ≡ S.name }
{
    let mut mint = blank.open::<S>();
    let lists = over_lists(rt, alloc, &mut mint)?;
    Ok((lists, over_heaps(rt, alloc, &mut mint)?))
}

#[test]
fn locks_over_both_indexes(rt: HostRuntime) -> Result<(), Fail> {
    let (lists, heaps) = both::<Brand, HostRuntime>(&rt, rt.alloc(), Blank::new(60))?;
    // Client 2's second request is tagged before its first completion, client 1's after it.
    assert_eq!(rt; lists, [[0, 10, 11], [1, 2, 12]]);
    assert_eq!(rt; heaps, lists);
    Ok(())
}
