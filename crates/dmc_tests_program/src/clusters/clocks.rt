//! The clock that advances by a step.
use crate::same::assert_same;
use dmc_driver::moments::{Moments, StepClock};
use std::test::Fail;

#[test]
fn step_clock(rt: HostRuntime) -> Result<(), Fail> {
    let clock = StepClock::new(7);
    for ticks in [0, 7, 14] {
        assert_same(&rt, &clock.now().ticks(), &ticks);
    }
    let clock = StepClock::new(1 << 63);
    for ticks in [0, 1 << 62] {
        assert_same(&rt, &clock.now().ticks(), &ticks);
    }
    Ok(())
}
