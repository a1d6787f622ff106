//! Stamps that no server took.
use crate::same::assert_same;
use crate::trackers::{ONE, ZERO, respond_of_cost};
use dmc_tracker::tracker::ServiceTracker;
use dmc_types::config::{Counting, PhaseType};
use dmc_types::cost::Cost;
use dmc_types::params::ReqParams;
use std::test::Fail;

/// A request: its delta, its rho and its cost.
type Request = (u32, u32, u32);

fn params((delta, rho, cost): Request) -> Result<ReqParams, Fail> {
    Ok(ReqParams::new(delta, rho)?.with_cost(Cost::new(cost)?))
}

/// A request, with the counts of a returned one besides. `None` if its delta would not fit.
fn with_returned(
    next: Request,
    returned: Request,
    counting: Counting,
) -> Result<Option<Request>, Fail> {
    let (next, returned) = (params(next)?, params(returned)?);
    let both = next.with_returned(returned, counting);
    Ok(both.map(|both| (both.delta(), both.rho(), both.cost().units())))
}

const MOST: u32 = 4_294_967_295;

/// A form, a returned stamp, the next one, and what that becomes.
const RETURNED: [(Counting, Request, Request, Option<Request>); 6] = [
    (Counting::All, (3, 3, 5), (2, 0, 1), Some((5, 3, 1))),
    (Counting::All, (MOST, 0, 1), (0, 0, 2), Some((MOST, 0, 2))),
    (Counting::All, (MOST, 0, 1), (1, 0, 2), None),
    (Counting::Others, (11, 11, 3), (4, 1, 1), Some((12, 9, 1))),
    (
        Counting::Others,
        (MOST, 4, 4),
        (4, 2, 2),
        Some((MOST, 2, 2)),
    ),
    (Counting::Others, (MOST, 4, 4), (5, 2, 2), None),
];

#[test]
fn returned_counts(rt: HostRuntime) -> Result<(), Fail> {
    for (counting, returned, next, wanted) in RETURNED {
        let both = with_returned(next, returned, counting)?;
        assert_same(&rt, &both, &wanted);
    }
    Ok(())
}

/// A response of server 1 of this cost, and then a stamp to server 0.
fn next_stamp(
    tracker: &mut ServiceTracker,
    phase: PhaseType,
    cost: u32,
) -> Result<ReqParams, Fail> {
    respond_of_cost(tracker, ONE, phase, Cost::new(cost)?)?;
    Ok(tracker.get_req_params(ZERO, Cost::ONE)?)
}

/// In the form `All` the counts that a server takes are the differences of the completions, which are 5, 8 and 10 here, and 0, 3
/// and 3 in the constraint phase: the second stamp comes back, and goes out with the third.
#[test]
fn returned_stamps_hide_nothing(rt: HostRuntime) -> Result<(), Fail> {
    let counting = Counting::All;
    let mut tracker = ServiceTracker::new(rt.alloc(), 2, 99, counting)?;
    let first = next_stamp(&mut tracker, PhaseType::Priority, 5)?;
    let returned = next_stamp(&mut tracker, PhaseType::Reservation, 3)?;
    let third = next_stamp(&mut tracker, PhaseType::Priority, 2)?;
    let taken = third
        .with_returned(returned, counting)
        .ok_or("a delta of 5")?;
    assert_same(&rt, &(first.delta(), first.rho()), &(5, 0));
    assert_same(&rt, &(taken.delta(), taken.rho()), &(5, 3));
    Ok(())
}
