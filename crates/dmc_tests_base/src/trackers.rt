//! Tests of service trackers.
use crate::same::assert_same;
use dmc_tracker::event::TrackerEvent;
use dmc_tracker::tracker::{MakeFault, ServiceTracker, TrackFault, is_too_much};
use dmc_types::config::{Counting, PhaseType};
use dmc_types::cost::Cost;
use dmc_types::ids::ServerId;
use dmc_types::limits::{MAX_COMPLETIONS, MAX_COUNT};
use std::test::Fail;

pub const ZERO: ServerId = ServerId(0);

pub const ONE: ServerId = ServerId(1);

// An entry of a tracker's list takes 20 bytes, whatever it is.
const _: () = prove!(size_of::<TrackerEvent>() == 20);

// Helpers with no contract: they are tested by running them, and a test that calls them takes little to prove.

/// The delta and the rho of a stamp of this cost.
pub fn stamp_of_cost(
    tracker: &mut ServiceTracker,
    server: ServerId,
    cost: Cost,
) -> Result<(u32, u32), TrackFault> {
    let params = tracker.get_req_params(server, cost)?;
    Ok((params.delta(), params.rho()))
}

/// A response of this cost.
pub fn respond_of_cost(
    tracker: &mut ServiceTracker,
    server: ServerId,
    phase: PhaseType,
    cost: Cost,
) -> Result<(), TrackFault> {
    tracker.track_resp(server, phase, cost)
}

fn stamp(tracker: &mut ServiceTracker, server: ServerId) -> Result<(u32, u32), TrackFault> {
    stamp_of_cost(tracker, server, Cost::ONE)
}

fn respond(
    tracker: &mut ServiceTracker,
    server: ServerId,
    phase: PhaseType,
) -> Result<(), TrackFault> {
    respond_of_cost(tracker, server, phase, Cost::ONE)
}

fn skip(tracker: &mut ServiceTracker, server: ServerId) -> Result<(), TrackFault> {
    tracker.skip(server)
}

/// A tracker's counts of a server: what it sent, what was skipped, what is pending, and whether it may stamp and respond.
#[derive(Clone, Copy, Debug, PartialEq, Eq)]
pub struct ServerStatus {
    sent: Option<(u64, u64)>,
    skipped: Option<(u64, u64)>,
    pending: Option<(u64, u64)>,
    stamp: Result<(), TrackFault>,
    response: Result<(), TrackFault>,
}

/// What a tracker shows of a server, for a request of cost 1.
pub fn status(tracker: &ServiceTracker, server: ServerId) -> ServerStatus {
    ServerStatus {
        sent: tracker.sent(server),
        skipped: tracker.skipped(server),
        pending: tracker.pending(server),
        stamp: tracker.can_stamp(server, Cost::ONE),
        response: tracker.can_respond(server, Cost::ONE),
    }
}

/// A tracker's counts of a server that may be stamped, and may respond, if nothing was skipped.
pub fn free(sent: (u64, u64), pending: (u64, u64)) -> ServerStatus {
    free_after_skip(sent, (0, 0), pending)
}

/// A tracker's counts of such a server where completions were skipped.
fn free_after_skip(sent: (u64, u64), skipped: (u64, u64), pending: (u64, u64)) -> ServerStatus {
    ServerStatus {
        sent: Some(sent),
        skipped: Some(skipped),
        pending: Some(pending),
        stamp: Ok(()),
        response: Ok(()),
    }
}

/// Stamp 0, response 0 reservation, stamp 1, response 1 priority, stamp 0, of requests of these costs.
pub fn three_stamps(
    tracker: &mut ServiceTracker,
    costs: [Cost; 3],
) -> Result<[(u32, u32); 3], TrackFault> {
    let first = stamp_of_cost(tracker, ZERO, costs[0])?;
    respond_of_cost(tracker, ZERO, PhaseType::Reservation, costs[0])?;
    let second = stamp_of_cost(tracker, ONE, costs[1])?;
    respond_of_cost(tracker, ONE, PhaseType::Priority, costs[1])?;
    let third = stamp_of_cost(tracker, ZERO, costs[2])?;
    Ok([first, second, third])
}

/// What a tracker was made with, and how many responses it counted.
pub fn made_with(tracker: &ServiceTracker) -> (u32, u64, Counting, (u64, u64)) {
    (
        tracker.servers(),
        tracker.most(),
        tracker.counting(),
        tracker.completions(),
    )
}

#[test]
fn two_server_tracker(rt: HostRuntime) -> Result<(), Fail> {
    let mut tracker = ServiceTracker::new(rt.alloc(), 2, 10, Counting::All)?;
    let stamps = three_stamps(&mut tracker, [Cost::ONE; 3])?;
    assert_same(&rt, &stamps, &[(0, 0), (1, 1), (2, 1)]);
    assert_same(&rt, &status(&tracker, ZERO), &free((2, 1), (0, 0)));
    assert_same(&rt, &status(&tracker, ONE), &free((1, 1), (1, 0)));
    assert_same(&rt, &made_with(&tracker), &(2, 10, Counting::All, (2, 1)));
    Ok(())
}

#[test]
fn others_tracker(rt: HostRuntime) -> Result<(), Fail> {
    let mut tracker = ServiceTracker::new(rt.alloc(), 2, 10, Counting::Others)?;
    let stamps = three_stamps(&mut tracker, [Cost::ONE; 3])?;
    assert_same(&rt, &stamps, &[(1, 1), (2, 2), (2, 1)]);
    assert_same(&rt, &status(&tracker, ZERO), &free((3, 2), (0, 0)));
    assert_same(&rt, &status(&tracker, ONE), &free((2, 2), (0, 0)));
    assert_same(
        &rt,
        &made_with(&tracker),
        &(2, 10, Counting::Others, (2, 1)),
    );
    Ok(())
}

#[test]
fn others_tracker_full(rt: HostRuntime) -> Result<(), Fail> {
    let mut tracker = ServiceTracker::new(rt.alloc(), 2, 1, Counting::Others)?;
    assert_same(&rt, &status(&tracker, ZERO).stamp, &Ok(()));
    assert_same(&rt, &stamp(&mut tracker, ZERO), &Ok((1, 1)));
    assert_same(&rt, &stamp(&mut tracker, ZERO), &Err(TrackFault::TrackFull));
    assert_same(
        &rt,
        &status(&tracker, ZERO).stamp,
        &Err(TrackFault::TrackFull),
    );
    assert_same(&rt, &status(&tracker, ZERO).sent, &Some((1, 1)));
    Ok(())
}

#[test]
fn tracker_limits(rt: HostRuntime) -> Result<(), Fail> {
    let mut tracker = ServiceTracker::new(rt.alloc(), 1, 1, Counting::All)?;
    assert_same(&rt, &status(&tracker, ZERO), &free((0, 0), (0, 0)));
    assert_same(
        &rt,
        &respond(&mut tracker, ZERO, PhaseType::Reservation),
        &Ok(()),
    );
    let full = Err(TrackFault::TrackFull);
    assert_same(&rt, &status(&tracker, ZERO).response, &full);
    assert_same(
        &rt,
        &respond(&mut tracker, ZERO, PhaseType::Priority),
        &full,
    );
    assert_same(&rt, &status(&tracker, ZERO).stamp, &Ok(()));
    Ok(())
}

#[test]
fn unknown_server(rt: HostRuntime) -> Result<(), Fail> {
    let mut tracker = ServiceTracker::new(rt.alloc(), 1, 1, Counting::All)?;
    let unknown = ServerStatus {
        sent: None,
        skipped: None,
        pending: None,
        stamp: Err(TrackFault::NoServer),
        response: Err(TrackFault::NoServer),
    };
    assert_same(&rt, &status(&tracker, ONE), &unknown);
    assert_same(&rt, &stamp(&mut tracker, ONE), &Err(TrackFault::NoServer));
    assert_same(&rt, &skip(&mut tracker, ONE), &Err(TrackFault::NoServer));
    assert_same(
        &rt,
        &respond(&mut tracker, ONE, PhaseType::Priority),
        &Err(TrackFault::NoServer),
    );
    Ok(())
}

#[test]
fn make_limits(rt: HostRuntime) -> Result<(), Fail> {
    for servers in [0, 65] {
        let refused = ServiceTracker::new(rt.alloc(), servers, 1, Counting::All);
        assert_same(&rt, &refused.err(), &Some(MakeFault::Limit));
    }
    for most in [0, MAX_COMPLETIONS + 1, u64::MAX] {
        let refused = ServiceTracker::new(rt.alloc(), 1, most, Counting::All);
        assert_same(&rt, &refused.err(), &Some(MakeFault::Limit));
    }
    let tracker = ServiceTracker::new(rt.alloc(), 1, MAX_COMPLETIONS, Counting::All)?;
    assert_same(&rt, &made_with(&tracker).1, &4_611_686_018_427_387_904);
    Ok(())
}

/// Responses 0 reservation and 1 priority, a skip of server 0, response 1 priority, and a stamp to each server.
fn skip_between(tracker: &mut ServiceTracker) -> Result<[(u32, u32); 2], TrackFault> {
    respond(tracker, ZERO, PhaseType::Reservation)?;
    respond(tracker, ONE, PhaseType::Priority)?;
    skip(tracker, ZERO)?;
    respond(tracker, ONE, PhaseType::Priority)?;
    let first = stamp(tracker, ZERO)?;
    let second = stamp(tracker, ONE)?;
    Ok([first, second])
}

#[test]
fn skipped_server(rt: HostRuntime) -> Result<(), Fail> {
    let mut tracker = ServiceTracker::new(rt.alloc(), 2, 10, Counting::All)?;
    assert_same(&rt, &skip_between(&mut tracker)?, &[(1, 0), (3, 1)]);
    let zero = free_after_skip((1, 0), (2, 1), (0, 0));
    assert_same(&rt, &status(&tracker, ZERO), &zero);
    assert_same(&rt, &status(&tracker, ONE), &free((3, 1), (0, 0)));
    assert_same(&rt, &made_with(&tracker), &(2, 10, Counting::All, (3, 1)));
    Ok(())
}

#[test]
fn skipped_server_others(rt: HostRuntime) -> Result<(), Fail> {
    let mut tracker = ServiceTracker::new(rt.alloc(), 2, 10, Counting::Others)?;
    assert_same(&rt, &skip_between(&mut tracker)?, &[(2, 1), (2, 2)]);
    let zero = free_after_skip((2, 1), (1, 0), (0, 0));
    assert_same(&rt, &status(&tracker, ZERO), &zero);
    assert_same(&rt, &status(&tracker, ONE), &free((2, 2), (0, 0)));
    Ok(())
}

/// A skip with nothing pending changes nothing, and one if all is counted or the sum is full is not refused.
#[test]
fn skip_never_full(rt: HostRuntime) -> Result<(), Fail> {
    let mut tracker = ServiceTracker::new(rt.alloc(), 2, 1, Counting::Others)?;
    assert_same(&rt, &stamp(&mut tracker, ZERO), &Ok((1, 1)));
    let before = status(&tracker, ZERO);
    assert_same(&rt, &skip(&mut tracker, ZERO), &Ok(()));
    assert_same(&rt, &status(&tracker, ZERO), &before);
    assert_same(
        &rt,
        &respond(&mut tracker, ONE, PhaseType::Priority),
        &Ok(()),
    );
    assert_same(&rt, &skip(&mut tracker, ZERO), &Ok(()));
    assert_same(&rt, &status(&tracker, ZERO).skipped, &Some((1, 0)));
    assert_same(&rt, &stamp(&mut tracker, ZERO), &Err(TrackFault::TrackFull));
    Ok(())
}

/// A delta may be 2^32-1 and no more; in the form `Others` it may take the sum to `most` and no further.
#[test]
fn widest_delta(rt: HostRuntime) -> Result<(), Fail> {
    let widest = u64::from(MAX_COUNT);
    assert_same(&rt, &widest, &4_294_967_295);
    for counting in [Counting::All, Counting::Others] {
        for (sent, delta, refused) in [
            (0, widest, false),
            (0, widest + 1, true),
            (MAX_COMPLETIONS - widest, widest, false),
            (0, MAX_COMPLETIONS, true),
        ] {
            let answer = is_too_much(counting, MAX_COMPLETIONS, sent, delta);
            assert_same(&rt, &answer, &refused);
        }
    }
    assert_same(&rt, &is_too_much(Counting::All, 9, 9, 9), &false);
    assert_same(&rt, &is_too_much(Counting::Others, 9, 8, 1), &false);
    assert_same(&rt, &is_too_much(Counting::Others, 9, 8, 2), &true);
    Ok(())
}
