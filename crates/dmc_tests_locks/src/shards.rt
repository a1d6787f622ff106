//! A server of two shards behind locks, and a client whose requests go to both.
ghost use Rattle.std.specs.Prelude.{◌≡◌};

use crate::same::assert_same;
use crate::setup::Lock;
use dmc_book::fault::{AdmitFault, SubmitCause};
use dmc_book::pass::WorkerPass;
use dmc_ledger::desk::ClientDesk;
use dmc_ledger::mint::{Blank, Mint};
use dmc_ledger::setup::Setup;
use dmc_qlock::lock::QueueLock;
use dmc_sharded::book::ArrivalBook;
use dmc_sharded::fault::ArriveFault;
use dmc_sharded::lock::{ArrivalLock, ArrivalStatus};
use dmc_sharded::server::ShardedServer;
use dmc_shards::status::ShardStatus;
use dmc_tests_setup::calls::register;
use dmc_tests_setup::opening::{
    Book, LONG, ONE, SEVEN, ZERO, both, only, open_book, push, wait_config,
};
use dmc_tracker::counts::Counts;
use dmc_tracker::tracker::TrackFault;
use dmc_types::ids::{ClientId, ServerId, Token};
use dmc_types::moment::Moment;
use dmc_types::params::ReqParams;
use std::alloc::Global;
use std::marker::Brand;
use std::sync::Wait;
use std::test::Fail;

pub(crate) type Server<S> = ShardedServer<Book<S>>;

const FIRST: ServerId = ServerId(0);

pub(crate) const SECOND: ServerId = ServerId(1);

const NO_SHARD: ServerId = ServerId(2);

/// More events than a test has.
pub(crate) const MANY: u32 = 99;

/// The lock of a shard without clients, which keeps at most this many events, and the pass of its worker.
fn open_shard<S: Setup>(
    alloc: Global,
    mint: &mut Mint<S>,
    shard: ServerId,
    most: u32,
) -> Result<(Lock<S>, WorkerPass<S>), Fail> {
    let config = wait_config(LONG)?;
    let desks = Vec::new(alloc);
    let (book, mut passes) = open_book(alloc, config, shard, mint, desks, &[SEVEN], most)?;
    let lock = QueueLock::new(book);
    match passes.pop() {
        Some(pass) => Ok((lock, pass)),
        None => {
            drop(lock);
            Err(Fail::new("a pass for the worker"))
        }
    }
}

/// A server of two shards, a client's book, and a pass of each shard.
#[derive(Drop)]
pub(crate) struct Opened<S: Setup> {
    pub(crate) server: Server<S>,
    pub(crate) client: ArrivalLock<S>,
    pub(crate) passes: Vec<WorkerPass<S>>,
}

/// The server of these locks.
fn server_of<S: Setup>(locks: Vec<Lock<S>>) -> Result<Server<S>, Fail> {
    match ShardedServer::new(locks) {
        Ok(server) => Ok(server),
        Err(locks) => {
            drop(locks);
            Err(Fail::new("shards in order"))
        }
    }
}

/// Admits and registers the client at the shard of its desk.
fn join<S: Setup, R: Wait>(
    rt: &R,
    server: &Server<S>,
    desk: ClientDesk<S>,
    pass: &mut WorkerPass<S>,
) -> Result<(), Fail> {
    let Some(queue) = server.shard(desk.server) else {
        return Err(Fail::new("a shard for the desk"));
    };
    if let Err(fault) = queue.admit(rt, desk) {
        let AdmitFault { desk, cause } = fault;
        drop(desk);
        return Err(cause.into());
    }
    queue.run(rt, pass, register(ONE, None)?)?;
    Ok(())
}

/// Admits client 1, whose deltas may be 9 in all.
fn come<S: Setup, R: Wait>(
    rt: &R,
    alloc: Global,
    mint: &mut Mint<S>,
    server: &Server<S>,
    passes: &mut [WorkerPass<S>],
) -> Result<ArrivalLock<S>, Fail> {
    let (book, desks) = ArrivalBook::open(alloc, mint, ONE, server.shard_count(), 9)?;
    for (desk, pass) in desks.into_iter().zip(passes.iter_mut()) {
        join(rt, server, desk, pass)?;
    }
    Ok(ArrivalLock::new(book))
}

pub(crate) fn open<S: Setup, R: Wait>(
    rt: &R,
    alloc: Global,
    mint: &mut Mint<S>,
    most: u32,
) -> Result<Opened<S>, Fail> {
    let (first, one) = open_shard(alloc, mint, FIRST, most)?;
    let (second, two) = open_shard(alloc, mint, SECOND, most)?;
    let mut passes = both(alloc, one, two)?;
    let server = server_of(both(alloc, first, second)?)?;
    let client = come(rt, alloc, mint, &server, passes.as_mut_slice())?;
    Ok(Opened {
        server,
        client,
        passes,
    })
}

/// Why a request of this delta does not come in at a shard, if it does not.
pub(crate) fn submit<S: Setup, R: Wait>(
    rt: &R,
    opened: &mut Opened<S>,
    shard: ServerId,
    delta: u32,
) -> Result<Option<ArriveFault>, Fail> {
    let place = (shard.0 % 2) as usize;
    let Some(pass) = opened.passes.get_mut(place) else {
        return Err(Fail::new("a pass for the shard"));
    };
    let params = ReqParams::new(delta, 0)?;
    let submitted = opened.server.submit(
        rt,
        &opened.client,
        pass,
        shard,
        params,
        Token(5),
        Moment::zero(),
    );
    match submitted {
        Ok(_) => Ok(None),
        Err(ArriveFault::Queue(SubmitCause::Memory)) => Err(SubmitCause::Memory.into()),
        Err(fault) => Ok(Some(fault)),
    }
}

/// The deltas that came in, and those that were sent to a shard, skipped there and are pending.
fn deltas(status: Option<ArrivalStatus>) -> Option<(u64, u64, u64, u64)> {
    let ArrivalStatus { came, shard } = status?;
    let ShardStatus {
        sent,
        skipped,
        pending,
    } = shard;
    Some((came.delta, sent.delta, skipped.delta, pending.delta))
}

/// What the client's lock shows of both shards.
fn shown<S: Setup, R: Wait>(rt: &R, opened: &Opened<S>) -> [Option<(u64, u64, u64, u64)>; 2] {
    [
        deltas(opened.client.status(rt, FIRST)),
        deltas(opened.client.status(rt, SECOND)),
    ]
}

/// Closes a shard's queue.
fn close<S: Setup, R: Wait>(rt: &R, server: &Server<S>, shard: ServerId) {
    if let Some(queue) = server.shard(shard) {
        queue.close(rt);
    }
}

/// What each step leaves: why a request is refused, and the counts.
type Step = (Option<ArriveFault>, [Option<(u64, u64, u64, u64)>; 2]);

/// A request for each shard, one that its queue refuses, one of too much, and one for a shard that there is not.
fn run_steps<S: Setup, R: Wait>(rt: &R, opened: &mut Opened<S>) -> Result<[Step; 5], Fail> {
    let first = (submit(rt, opened, FIRST, 2)?, shown(rt, opened));
    let second = (submit(rt, opened, SECOND, 1)?, shown(rt, opened));
    close(rt, &opened.server, FIRST);
    let closed = (submit(rt, opened, FIRST, 1)?, shown(rt, opened));
    let full = (submit(rt, opened, SECOND, 7)?, shown(rt, opened));
    let none = (submit(rt, opened, NO_SHARD, 1)?, shown(rt, opened));
    Ok([first, second, closed, full, none])
}

fn run_shards<S: Setup, R: Wait>(
    rt: &R,
    alloc: Global,
    blank: Blank,
) -> Result<
    (
        [Step; 5],
        Result<(), TrackFault>,
        [Option<(u64, u64, u64, u64)>; 2],
    ),
    Fail,
>
    requires { blank.name ≡ S.name }
{
    let mut mint = blank.open::<S>();
    let mut opened = open(rt, alloc, &mut mint, MANY)?;
    let steps = run_steps(rt, &mut opened);
    let skipped = opened.client.skip(rt, FIRST);
    let after = shown(rt, &opened);
    drop(opened);
    Ok((steps?, skipped, after))
}

#[test]
fn shards_of_a_server(rt: HostRuntime) -> Result<(), Fail> {
    let answer = run_shards::<Brand, HostRuntime>(&rt, rt.alloc(), Blank::new(64))?;
    let both = [Some((3, 2, 0, 1)), Some((3, 3, 0, 0))];
    let steps = [
        (None, [Some((2, 2, 0, 0)), Some((2, 0, 0, 2))]),
        (None, both),
        (Some(ArriveFault::Queue(SubmitCause::Closed)), both),
        (Some(ArriveFault::TrackFull), both),
        (Some(ArriveFault::NoServer), both),
    ];
    let after = [Some((3, 2, 1, 0)), Some((3, 3, 0, 0))];
    assert_same(&rt, &answer, &(steps, Ok(()), after));
    Ok(())
}

/// A shard's queue releases its events.
fn rotate<S: Setup, R: Wait>(rt: &R, server: &Server<S>, shard: ServerId) -> Result<(), Fail> {
    let Some(queue) = server.shard(shard) else {
        return Err(Fail::new("a shard"));
    };
    match queue.rotate(rt) {
        Some(_) => Ok(()),
        None => Err(Fail::new("a segment")),
    }
}

/// A request that the queue of its shard refuses, since its history is full, between two that come in.
fn refuse_between<S: Setup, R: Wait>(rt: &R, opened: &mut Opened<S>) -> Result<[Step; 3], Fail> {
    let before = (submit(rt, opened, FIRST, 2)?, shown(rt, opened));
    let refused = (submit(rt, opened, FIRST, 1)?, shown(rt, opened));
    rotate(rt, &opened.server, FIRST)?;
    let after = (submit(rt, opened, FIRST, 3)?, shown(rt, opened));
    Ok([before, refused, after])
}

fn run_refusal<S: Setup, R: Wait>(rt: &R, alloc: Global, blank: Blank) -> Result<[Step; 3], Fail>
    requires { blank.name ≡ S.name }
{
    let mut mint = blank.open::<S>();
    let mut opened = open(rt, alloc, &mut mint, 2)?;
    let steps = refuse_between(rt, &mut opened);
    drop(opened);
    steps
}

#[test]
fn refused_between(rt: HostRuntime) -> Result<(), Fail> {
    let answer = run_refusal::<Brand, HostRuntime>(&rt, rt.alloc(), Blank::new(64))?;
    let first = [Some((2, 2, 0, 0)), Some((2, 0, 0, 2))];
    let steps = [
        (None, first),
        (Some(ArriveFault::Queue(SubmitCause::HistoryFull)), first),
        (None, [Some((5, 5, 0, 0)), Some((5, 0, 0, 5))]),
    ];
    assert_same(&rt, &answer, &steps);
    Ok(())
}

/// Whether locks of these servers are the shards of one.
fn are_shards<S: Setup>(alloc: Global, blank: Blank, servers: &[ServerId]) -> Result<bool, Fail>
    requires { blank.name ≡ S.name }
{
    let mut mint = blank.open::<S>();
    let mut locks = Vec::new(alloc);
    for server in servers {
        let (lock, _) = open_shard(alloc, &mut mint, *server, MANY)?;
        push(&mut locks, lock)?;
    }
    match ShardedServer::new(locks) {
        Ok(server) => {
            drop(server);
            Ok(true)
        }
        Err(locks) => {
            drop(locks);
            Ok(false)
        }
    }
}

#[test]
fn shards_in_order(rt: HostRuntime) -> Result<(), Fail> {
    let alloc = rt.alloc();
    let two = are_shards::<Brand>(alloc, Blank::new(64), &[FIRST, SECOND])?;
    let turned = are_shards::<Brand>(alloc, Blank::new(64), &[SECOND, FIRST])?;
    let none = are_shards::<Brand>(alloc, Blank::new(64), &[])?;
    assert_same(&rt, &(two, turned, none), &(true, false, false));
    Ok(())
}
