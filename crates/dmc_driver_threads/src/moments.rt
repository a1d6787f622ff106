//! What time it is, for the workers of a run.
ghost use Rattle.std.specs.Prelude.{◌≡◌, ◌*◌, min};
ghost use Rattle.dmc_types.specs.Limits.{max_moment};

use dmc_types::limits::MAX_MOMENT;
use dmc_types::moment::Moment;
use std::sync::atomic::{AtomicU64, Ordering};

/// Gives the moments at which requests are sent and pulled. All workers call it at once. A moment may be before one that was
/// given earlier.
pub trait Moments {
    /// What time it is.
    fn now(&self) -> Moment;
}

/// A clock that advances by a step at each reading: the n-th one, counted from 0, is n steps from 0, at most 2^62 ticks.
#[derive(Drop)]
pub struct StepClock {
    step: u64,
    readings: AtomicU64,
}

impl StepClock {
    /// A clock that was not read yet, of this number of ticks a step.
    pub fn new(step: u64) -> StepClock {
        StepClock {
            step,
            readings: AtomicU64::new(0),
        }
    }
}

impl Moments for StepClock {
    fn now(&self) -> Moment {
        moment_of(self.readings.fetch_add(1, Ordering::SeqCst), self.step)
    }
}

/// The moment of a reading.
fn moment_of(reading: u64, step: u64) -> Moment
    ensures { result ≡ min (reading * step) max_moment }
{
    Moment::new(reading.saturating_mul(step).min(MAX_MOMENT)).unwrap()
}
