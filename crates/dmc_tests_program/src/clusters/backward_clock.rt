//! A clock that goes back.
use super::setup::{Prompt, done, is_whole, run_by, three_servers};
use crate::replays::must_replay;
use dmc_driver::moments::Moments;
use dmc_types::moment::Moment;
use std::sync::atomic::{AtomicU64, Ordering};
use std::test::Fail;

/// Returns 2^62 first, and 0 ever after.
#[derive(Drop)]
struct Backward {
    readings: AtomicU64,
}

impl Moments for Backward {
    fn now(&self) -> Moment {
        if self.readings.fetch_add(1, Ordering::SeqCst) > 0 {
            return Moment::zero();
        }
        match Moment::new(1 << 62) {
            Ok(last) => last,
            Err(_) => Moment::zero(),
        }
    }
}

#[test]
fn backward_clock(rt: HostRuntime) -> Result<(), Fail> {
    let scene = three_servers(rt.alloc())?;
    let clock = Backward {
        readings: AtomicU64::new(0),
    };
    let report = done(run_by(&rt, &scene, &Prompt, &clock))?;
    is_whole(&rt, &report, 0);
    must_replay(&rt, rt.alloc(), &scene, &report)
}
