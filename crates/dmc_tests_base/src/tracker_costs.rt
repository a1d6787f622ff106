//! Service trackers whose requests have costs.
use crate::same::assert_same;
use crate::trackers::{
    ONE, ZERO, free, made_with, respond_of_cost, stamp_of_cost, status, three_stamps,
};
use dmc_tracker::tracker::{ServiceTracker, TrackFault};
use dmc_types::config::{Counting, PhaseType};
use dmc_types::cost::Cost;
use dmc_types::limits::MAX_COUNT;
use std::test::Fail;

const FULL: TrackFault = TrackFault::TrackFull;

#[test]
fn tracker_costs_all(rt: HostRuntime) -> Result<(), Fail> {
    let mut tracker = ServiceTracker::new(rt.alloc(), 2, 99, Counting::All)?;
    let costs = [Cost::new(8)?, Cost::new(2)?, Cost::ONE];
    let stamps = three_stamps(&mut tracker, costs)?;
    assert_same(&rt, &stamps, &[(0, 0), (8, 8), (10, 8)]);
    assert_same(&rt, &status(&tracker, ZERO), &free((10, 8), (0, 0)));
    assert_same(&rt, &status(&tracker, ONE), &free((8, 8), (2, 0)));
    assert_same(&rt, &made_with(&tracker), &(2, 99, Counting::All, (10, 8)));
    Ok(())
}

#[test]
fn tracker_costs_others(rt: HostRuntime) -> Result<(), Fail> {
    let mut tracker = ServiceTracker::new(rt.alloc(), 2, 99, Counting::Others)?;
    let costs = [Cost::new(8)?, Cost::new(3)?, Cost::ONE];
    let stamps = three_stamps(&mut tracker, costs)?;
    assert_same(&rt, &stamps, &[(8, 8), (11, 11), (4, 1)]);
    assert_same(&rt, &status(&tracker, ZERO), &free((12, 9), (0, 0)));
    assert_same(&rt, &status(&tracker, ONE), &free((11, 11), (0, 0)));
    assert_same(
        &rt,
        &made_with(&tracker),
        &(2, 99, Counting::Others, (11, 8)),
    );
    Ok(())
}

/// What completed may cost as much as the tracker counts, and no more.
#[test]
fn responses_full(rt: HostRuntime) -> Result<(), Fail> {
    let mut tracker = ServiceTracker::new(rt.alloc(), 1, 10, Counting::All)?;
    let phase = PhaseType::Priority;
    respond_of_cost(&mut tracker, ZERO, phase, Cost::new(7)?)?;
    let before = status(&tracker, ZERO);
    let refused = respond_of_cost(&mut tracker, ZERO, phase, Cost::new(4)?);
    assert_same(&rt, &refused, &Err(FULL));
    assert_same(&rt, &status(&tracker, ZERO), &before);
    let counted = respond_of_cost(&mut tracker, ZERO, phase, Cost::new(3)?);
    assert_same(&rt, &counted, &Ok(()));
    assert_same(&rt, &made_with(&tracker).3, &(10, 0));
    Ok(())
}

/// In the form `Others` the stamps to a server may cost as much as the tracker counts, and no more.
#[test]
fn stamps_full(rt: HostRuntime) -> Result<(), Fail> {
    let mut tracker = ServiceTracker::new(rt.alloc(), 1, 10, Counting::Others)?;
    stamp_of_cost(&mut tracker, ZERO, Cost::new(7)?)?;
    let before = status(&tracker, ZERO);
    let refused = stamp_of_cost(&mut tracker, ZERO, Cost::new(4)?);
    assert_same(&rt, &refused, &Err(FULL));
    assert_same(&rt, &status(&tracker, ZERO), &before);
    let stamped = stamp_of_cost(&mut tracker, ZERO, Cost::new(3)?);
    assert_same(&rt, &stamped, &Ok((3, 3)));
    Ok(())
}

/// A stamp carries a delta of at most 2^32-1. In the form `Others` the cost of its own request is in it, so that one of cost 4 is
/// refused if one of cost 3 is not; in the form `All` it is not.
#[test]
fn widest_stamps(rt: HostRuntime) -> Result<(), Fail> {
    let (three, four) = (Cost::new(3)?, Cost::new(4)?);
    let most = Cost::new(MAX_COUNT - 3)?;
    for (counting, with_four, with_three) in [
        (Counting::All, Ok((4_294_967_292, 0)), Ok((0, 0))),
        (Counting::Others, Err(FULL), Ok((4_294_967_295, 3))),
    ] {
        let mut tracker = ServiceTracker::new(rt.alloc(), 2, 1 << 40, counting)?;
        respond_of_cost(&mut tracker, ONE, PhaseType::Priority, most)?;
        assert_same(&rt, &stamp_of_cost(&mut tracker, ZERO, four), &with_four);
        assert_same(&rt, &stamp_of_cost(&mut tracker, ZERO, three), &with_three);
    }
    Ok(())
}

/// In the form `All` a stamp is refused if more than 2^32-1 completed since the last one, and nothing has changed.
#[test]
fn too_much_for_a_stamp(rt: HostRuntime) -> Result<(), Fail> {
    let mut tracker = ServiceTracker::new(rt.alloc(), 2, 1 << 40, Counting::All)?;
    respond_of_cost(
        &mut tracker,
        ONE,
        PhaseType::Priority,
        Cost::new(MAX_COUNT)?,
    )?;
    respond_of_cost(&mut tracker, ONE, PhaseType::Priority, Cost::ONE)?;
    let before = status(&tracker, ZERO);
    assert_same(
        &rt,
        &stamp_of_cost(&mut tracker, ZERO, Cost::ONE),
        &Err(FULL),
    );
    assert_same(&rt, &status(&tracker, ZERO), &before);
    Ok(())
}
