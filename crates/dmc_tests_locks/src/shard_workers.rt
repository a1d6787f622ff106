//! Workers that join and leave the shards of a server.
ghost use Rattle.std.specs.Prelude.{◌≡◌};

use crate::same::assert_same;
use crate::setup::{Lock, grant};
use crate::shards::{MANY, Opened, SECOND, open, submit};
use dmc_book::pass::WorkerPass;
use dmc_ledger::mint::{Blank, Mint};
use dmc_ledger::setup::Setup;
use dmc_ledger::unit::Unit;
use dmc_sharded::book::ArrivalBook;
use dmc_sharded::fault::{UnitCause, UnitFault};
use dmc_sharded::lock::ArrivalLock;
use dmc_tag::reply::Pulled;
use dmc_tests_setup::opening::ONE;
use dmc_types::ids::{ClientId, WorkerId};
use dmc_types::moment::Moment;
use std::alloc::Global;
use std::marker::Brand;
use std::sync::Wait;
use std::test::Fail;

const EIGHT: WorkerId = WorkerId(8);

/// The response to a unit of client 1 leaves by a client's book.
fn respond<S: Setup, R: Wait>(
    rt: &R,
    client: &ArrivalLock<S>,
    pass: &mut WorkerPass<S>,
    unit: Unit,
) -> Result<Result<(), UnitFault>, Fail> {
    let Some(tills) = pass.grant_tills(ONE, unit.phase()) else {
        return Err(Fail::new("tills of the client"));
    };
    if !tills.holds(unit.cost()) {
        return Err(Fail::new("a grant in the tills"));
    }
    Ok(client.respond(rt, unit, tills))
}

/// Why another client's book does not take the response to the worker's grant. Then the client's own takes it.
fn respond_twice<S: Setup, R: Wait>(
    rt: &R,
    client: &ArrivalLock<S>,
    other: &ArrivalLock<S>,
    pass: &mut WorkerPass<S>,
) -> Result<Option<UnitCause>, Fail> {
    let Some(unit) = pass.take_unit() else {
        return Err(Fail::new("a unit of the grant"));
    };
    let Err(UnitFault { unit, cause }) = respond(rt, other, pass, unit)? else {
        return Ok(None);
    };
    match respond(rt, client, pass, unit)? {
        Ok(()) => Ok(Some(cause)),
        Err(_) => Err(Fail::new("a response that leaves")),
    }
}

/// A worker is granted the client's request. Whether it may leave before its response does, why another client's book does not take
/// that, and whether it may leave then.
fn leave<S: Setup, R: Wait>(
    rt: &R,
    alloc: Global,
    queue: &Lock<S>,
    client: &ArrivalLock<S>,
    other: &ArrivalLock<S>,
    pass: WorkerPass<S>,
) -> Result<(bool, Option<UnitCause>, bool), Fail> {
    let mut pass = pass;
    queue.extend(rt, alloc, &mut pass)?;
    queue.pull(rt, &mut pass, Moment::zero())?;
    let Err(mut pass) = queue.dismiss(rt, pass) else {
        return Ok((true, None, false));
    };
    let cause = respond_twice(rt, client, other, &mut pass)?;
    Ok((false, cause, queue.dismiss(rt, pass).is_ok()))
}

/// A request comes in at the second shard, whose worker then leaves.
fn leave_second<S: Setup, R: Wait>(
    rt: &R,
    alloc: Global,
    opened: &mut Opened<S>,
    other: &ArrivalLock<S>,
) -> Result<(bool, Option<UnitCause>, bool), Fail> {
    submit(rt, opened, SECOND, 1)?;
    let Some(pass) = opened.passes.pop() else {
        return Err(Fail::new("a pass of the second shard"));
    };
    match opened.server.shard(SECOND) {
        Some(queue) => leave(rt, alloc, queue, &opened.client, other, pass),
        None => Err(Fail::new("a second shard")),
    }
}

fn run_leaving<S: Setup, R: Wait>(
    rt: &R,
    alloc: Global,
    blank: Blank,
) -> Result<(bool, Option<UnitCause>, bool), Fail>
    requires { blank.name ≡ S.name }
{
    let mut mint = blank.open::<S>();
    let (book, _) = ArrivalBook::open(alloc, &mut mint, ClientId(3), 2, 9)?;
    let other = ArrivalLock::new(book);
    let mut opened = open(rt, alloc, &mut mint, MANY)?;
    let left = leave_second(rt, alloc, &mut opened, &other);
    drop(opened);
    left
}

#[test]
fn worker_leaves_a_shard(rt: HostRuntime) -> Result<(), Fail> {
    let left = run_leaving::<Brand, HostRuntime>(&rt, rt.alloc(), Blank::new(64))?;
    assert_same(&rt, &left, &(false, Some(UnitCause::Stranger), true));
    Ok(())
}

/// What a worker that joins the second shard later is granted there.
fn come_to_second<S: Setup, R: Wait>(
    rt: &R,
    alloc: Global,
    mint: &mut Mint<S>,
    opened: &mut Opened<S>,
) -> Result<Pulled, Fail> {
    submit(rt, opened, SECOND, 1)?;
    let Some(queue) = opened.server.shard(SECOND) else {
        return Err(Fail::new("a second shard"));
    };
    let mut worker = queue.enrol(rt, alloc, EIGHT, mint)?;
    Ok(queue.pull(rt, &mut worker, Moment::zero())?)
}

fn run_coming<S: Setup, R: Wait>(rt: &R, alloc: Global, blank: Blank) -> Result<Pulled, Fail>
    requires { blank.name ≡ S.name }
{
    let mut mint = blank.open::<S>();
    let mut opened = open(rt, alloc, &mut mint, MANY)?;
    let pulled = come_to_second(rt, alloc, &mut mint, &mut opened);
    drop(opened);
    pulled
}

#[test]
fn worker_comes_to_a_shard(rt: HostRuntime) -> Result<(), Fail> {
    let pulled = run_coming::<Brand, HostRuntime>(&rt, rt.alloc(), Blank::new(64))?;
    assert_same(&rt, &pulled, &grant(ONE, 5));
    Ok(())
}
