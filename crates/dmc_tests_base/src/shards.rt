//! Tests of shard trackers.
use crate::same::assert_same;
use crate::trackers::{ONE, ZERO};
use dmc_shards::status::ShardStatus;
use dmc_shards::tracker::{GiveBackFault, ShardTracker};
use dmc_tracker::counts::Counts;
use dmc_tracker::tracker::{MakeFault, TrackFault};
use dmc_types::cost::Cost;
use dmc_types::ids::ServerId;
use dmc_types::limits::{MAX_COMPLETIONS, MAX_COUNT};
use dmc_types::params::ReqParams;
use std::test::Fail;

/// A request: its delta, its rho and its cost.
type Request = (u32, u32, u32);

fn params((delta, rho, cost): Request) -> Result<ReqParams, Fail> {
    Ok(ReqParams::new(delta, rho)?.with_cost(Cost::new(cost)?))
}

/// The stamp of a request that goes to a shard, or why it is refused.
fn arrive(
    tracker: &mut ShardTracker,
    shard: ServerId,
    request: Request,
) -> Result<Result<Request, TrackFault>, Fail> {
    let stamped = tracker.arrive(shard, params(request)?);
    Ok(stamped.map(|stamp| (stamp.delta(), stamp.rho(), stamp.cost().units())))
}

/// The stamp that it would get, or why it would be refused.
fn next(
    tracker: &ShardTracker,
    shard: ServerId,
    request: Request,
) -> Result<Result<Request, TrackFault>, Fail> {
    let stamped = tracker.next(shard, params(request)?);
    Ok(stamped.map(|stamp| (stamp.delta(), stamp.rho(), stamp.cost().units())))
}

fn give_back(
    tracker: &mut ShardTracker,
    shard: ServerId,
    request: Request,
) -> Result<Result<(), GiveBackFault>, Fail> {
    Ok(tracker.give_back(shard, params(request)?))
}

fn counts((delta, rho): (u64, u64)) -> Counts {
    Counts { delta, rho }
}

/// What was sent to a shard and what is pending there, if nothing was skipped.
fn shown(sent: (u64, u64), pending: (u64, u64)) -> Option<ShardStatus> {
    shown_after_skip(sent, (0, 0), pending)
}

/// What was sent to a shard, what was skipped and what is pending there.
fn shown_after_skip(
    sent: (u64, u64),
    skipped: (u64, u64),
    pending: (u64, u64),
) -> Option<ShardStatus> {
    Some(ShardStatus {
        sent: counts(sent),
        skipped: counts(skipped),
        pending: counts(pending),
    })
}

fn came(tracker: &ShardTracker) -> (u64, u64) {
    (tracker.came().delta, tracker.came().rho)
}

/// A request to shard 0, one to shard 1 that its queue refuses, and one to shard 1 again.
#[test]
fn two_shards(rt: HostRuntime) -> Result<(), Fail> {
    let mut tracker = ShardTracker::new(rt.alloc(), 2, 6)?;
    assert_same(&rt, &(tracker.shards(), tracker.most()), &(2, 6));
    let first = arrive(&mut tracker, ZERO, (2, 1, 1))?;
    assert_same(&rt, &first, &Ok((2, 1, 1)));
    let second = arrive(&mut tracker, ONE, (3, 0, 4))?;
    assert_same(&rt, &second, &Ok((5, 1, 4)));
    assert_same(&rt, &give_back(&mut tracker, ONE, (5, 1, 4))?, &Ok(()));
    assert_same(&rt, &tracker.status(ONE), &shown((0, 0), (5, 1)));
    let third = arrive(&mut tracker, ONE, (1, 1, 2))?;
    assert_same(&rt, &third, &Ok((6, 2, 2)));
    assert_same(&rt, &tracker.status(ZERO), &shown((2, 1), (4, 1)));
    assert_same(&rt, &tracker.status(ONE), &shown((6, 2), (0, 0)));
    assert_same(&rt, &came(&tracker), &(6, 2));
    Ok(())
}

/// The next stamp is that of the arrival, and without an arrival nothing has come in.
#[test]
fn next_stamp(rt: HostRuntime) -> Result<(), Fail> {
    let mut tracker = ShardTracker::new(rt.alloc(), 2, 6)?;
    arrive(&mut tracker, ZERO, (2, 1, 1))??;
    for _ in 0..2 {
        assert_same(&rt, &next(&tracker, ONE, (3, 0, 4))?, &Ok((5, 1, 4)));
        assert_same(&rt, &tracker.status(ONE), &shown((0, 0), (2, 1)));
        assert_same(&rt, &came(&tracker), &(2, 1));
    }
    let second = arrive(&mut tracker, ONE, (3, 0, 4))?;
    assert_same(&rt, &second, &Ok((5, 1, 4)));
    let full = Err(TrackFault::TrackFull);
    assert_same(&rt, &next(&tracker, ONE, (2, 0, 1))?, &full);
    let unknown = Err(TrackFault::NoServer);
    assert_same(&rt, &next(&tracker, ServerId(2), (0, 0, 1))?, &unknown);
    Ok(())
}

/// The first of two stamps to a shard is given back after the second: the third carries it.
#[test]
fn given_back_late(rt: HostRuntime) -> Result<(), Fail> {
    let mut tracker = ShardTracker::new(rt.alloc(), 1, 99)?;
    assert_same(&rt, &arrive(&mut tracker, ZERO, (3, 1, 1))?, &Ok((3, 1, 1)));
    assert_same(&rt, &arrive(&mut tracker, ZERO, (4, 4, 1))?, &Ok((4, 4, 1)));
    assert_same(&rt, &give_back(&mut tracker, ZERO, (3, 1, 1))?, &Ok(()));
    assert_same(&rt, &tracker.status(ZERO), &shown((4, 4), (3, 1)));
    let third = arrive(&mut tracker, ZERO, (1, 0, 1))?;
    assert_same(&rt, &third, &Ok((4, 1, 1)));
    assert_same(&rt, &tracker.status(ZERO), &shown((8, 5), (0, 0)));
    Ok(())
}

/// What is refused changes nothing.
#[test]
fn not_sent(rt: HostRuntime) -> Result<(), Fail> {
    let mut tracker = ShardTracker::new(rt.alloc(), 2, 99)?;
    let refused = Err(GiveBackFault::NotSent);
    arrive(&mut tracker, ZERO, (3, 1, 1))??;
    assert_same(&rt, &give_back(&mut tracker, ZERO, (4, 1, 1))?, &refused);
    assert_same(&rt, &give_back(&mut tracker, ZERO, (2, 2, 1))?, &refused);
    assert_same(&rt, &give_back(&mut tracker, ONE, (1, 0, 1))?, &refused);
    assert_same(&rt, &tracker.status(ZERO), &shown((3, 1), (0, 0)));
    assert_same(&rt, &give_back(&mut tracker, ZERO, (3, 1, 1))?, &Ok(()));
    assert_same(&rt, &give_back(&mut tracker, ZERO, (3, 1, 1))?, &refused);
    assert_same(&rt, &tracker.status(ZERO), &shown((0, 0), (3, 1)));
    Ok(())
}

#[test]
fn shards_full(rt: HostRuntime) -> Result<(), Fail> {
    let full = Err(TrackFault::TrackFull);
    let mut tracker = ShardTracker::new(rt.alloc(), 2, 5)?;
    arrive(&mut tracker, ZERO, (4, 0, 1))??;
    assert_same(&rt, &arrive(&mut tracker, ONE, (2, 0, 1))?, &full);
    assert_same(&rt, &tracker.status(ONE), &shown((0, 0), (4, 0)));
    assert_same(&rt, &arrive(&mut tracker, ONE, (1, 0, 1))?, &Ok((5, 0, 1)));
    let mut wide = ShardTracker::new(rt.alloc(), 2, MAX_COMPLETIONS)?;
    arrive(&mut wide, ZERO, (MAX_COUNT, 0, 1))??;
    assert_same(&rt, &arrive(&mut wide, ONE, (1, 0, 1))?, &full);
    let widest = arrive(&mut wide, ONE, (0, 0, 1))?;
    assert_same(&rt, &widest, &Ok((MAX_COUNT, 0, 1)));
    Ok(())
}

/// A shard that was not used while 2^32-1 came for the other refuses each request, until what is pending there is skipped.
#[test]
fn skipped_shard(rt: HostRuntime) -> Result<(), Fail> {
    let full = Err(TrackFault::TrackFull);
    let most = u64::from(MAX_COUNT);
    let mut tracker = ShardTracker::new(rt.alloc(), 2, MAX_COMPLETIONS)?;
    arrive(&mut tracker, ZERO, (MAX_COUNT, 1, 1))??;
    assert_same(&rt, &tracker.status(ONE), &shown((0, 0), (most, 1)));
    assert_same(&rt, &arrive(&mut tracker, ONE, (1, 0, 1))?, &full);
    arrive(&mut tracker, ZERO, (2, 0, 1))??;
    assert_same(&rt, &arrive(&mut tracker, ONE, (1, 0, 1))?, &full);
    assert_same(&rt, &tracker.skip(ONE), &Ok(()));
    let skipped = shown_after_skip((0, 0), (most + 2, 1), (0, 0));
    assert_same(&rt, &tracker.status(ONE), &skipped);
    assert_same(&rt, &arrive(&mut tracker, ONE, (1, 1, 2))?, &Ok((1, 1, 2)));
    let sent = shown_after_skip((1, 1), (most + 2, 1), (0, 0));
    assert_same(&rt, &tracker.status(ONE), &sent);
    assert_same(&rt, &tracker.status(ZERO), &shown((most + 2, 1), (1, 1)));
    assert_same(&rt, &came(&tracker), &(most + 3, 2));
    Ok(())
}

/// What was stamped before a skip may be given back after it: the next stamp carries it. A skip with nothing pending changes nothing,
/// and one after all that can come is not refused.
#[test]
fn given_back_after_skip(rt: HostRuntime) -> Result<(), Fail> {
    let mut tracker = ShardTracker::new(rt.alloc(), 2, 6)?;
    arrive(&mut tracker, ZERO, (3, 1, 1))??;
    arrive(&mut tracker, ONE, (2, 0, 1))??;
    assert_same(&rt, &tracker.skip(ZERO), &Ok(()));
    let skipped = shown_after_skip((3, 1), (2, 0), (0, 0));
    assert_same(&rt, &tracker.status(ZERO), &skipped);
    assert_same(&rt, &give_back(&mut tracker, ZERO, (3, 1, 1))?, &Ok(()));
    let back = shown_after_skip((0, 0), (2, 0), (3, 1));
    assert_same(&rt, &tracker.status(ZERO), &back);
    assert_same(&rt, &arrive(&mut tracker, ZERO, (1, 1, 1))?, &Ok((4, 2, 1)));
    assert_same(&rt, &tracker.skip(ZERO), &Ok(()));
    let sent = shown_after_skip((4, 2), (2, 0), (0, 0));
    assert_same(&rt, &tracker.status(ZERO), &sent);
    Ok(())
}

#[test]
fn unknown_shard(rt: HostRuntime) -> Result<(), Fail> {
    let mut tracker = ShardTracker::new(rt.alloc(), 1, 5)?;
    let unknown = Err(TrackFault::NoServer);
    assert_same(&rt, &arrive(&mut tracker, ONE, (1, 0, 1))?, &unknown);
    let refused = Err(GiveBackFault::NoServer);
    assert_same(&rt, &give_back(&mut tracker, ONE, (0, 0, 1))?, &refused);
    assert_same(&rt, &tracker.skip(ONE), &Err(TrackFault::NoServer));
    assert_same(&rt, &tracker.status(ONE), &None);
    assert_same(&rt, &came(&tracker), &(0, 0));
    for shards in [0, 65] {
        let made = ShardTracker::new(rt.alloc(), shards, 1).err();
        assert_same(&rt, &made, &Some(MakeFault::Limit));
    }
    for most in [0, MAX_COMPLETIONS + 1] {
        let made = ShardTracker::new(rt.alloc(), 1, most).err();
        assert_same(&rt, &made, &Some(MakeFault::Limit));
    }
    Ok(())
}
