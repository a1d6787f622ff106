//! A clock that jumps back and forth.
use super::words::word_of;
use dmc_driver::moments::Moments;
use dmc_types::moment::Moment;
use std::sync::atomic::{AtomicU64, Ordering};

/// Advances by 16 ticks at each reading, and returns a moment that is up to 4,095 ticks later.
#[derive(Drop)]
pub(super) struct JumpingClock {
    seed: u64,
    readings: AtomicU64,
}

impl JumpingClock {
    pub(super) fn new(seed: u64) -> JumpingClock {
        JumpingClock {
            seed,
            readings: AtomicU64::new(0),
        }
    }
}

impl Moments for JumpingClock {
    fn now(&self) -> Moment {
        let reading = self.readings.fetch_add(1, Ordering::SeqCst);
        let later = word_of(self.seed ^ reading) % 4096;
        match Moment::new(reading.wrapping_mul(16).wrapping_add(later)) {
            Ok(moment) => moment,
            Err(_) => Moment::zero(),
        }
    }
}
