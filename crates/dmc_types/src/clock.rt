//! A real clock: moments from nanoseconds, and back.
ghost use Rattle.std.specs.Prelude.{◌≡◌, ℕ, ◌*◌, ◌/◌, ◌^◌, ◌<◌, ◌≤◌, ◌↔◌, ◌⊎◌, IsNone, IsTrue, IfSome};
ghost use Rattle.dmc_types.specs.Clock.{IsHz, IsLeastNanos, ticks_after};
ghost use Rattle.dmc_types.specs.Limits.{max_moment};

use crate::limits::{MAX_HZ, MAX_MOMENT};
use crate::moment::Moment;

/// The nanoseconds in a second.
const NANOS_PER_SECOND: u128 = 1_000_000_000;

/// Whether a configuration may have this hz.
fn is_hz(hz: u32) -> bool
    ensures { IsTrue result ↔ IsHz hz }
{
    hz > 0 && u64::from(hz) <= MAX_HZ
}

impl Moment {
    /// The moment of a clock that has counted `nanos` nanoseconds, with `hz` ticks a second: the whole ticks that have passed.
    /// `None` if that is above 2^62, and if `hz` is not 1 to 1,000,000,000.
    pub fn from_nanos(hz: u32, nanos: u64) -> Option<Moment>
        ensures value { IfSome result (λ moment. moment ≡ ticks_after hz nanos) }
        ensures none { IsNone result ↔ (IsHz hz → ⊥) ⊎ (max_moment < ticks_after hz nanos) }
    {
        if !is_hz(hz) {
            return None;
        }
        let ticks = u128::from(nanos) * u128::from(hz) / NANOS_PER_SECOND;
        if ticks > u128::from(MAX_MOMENT) {
            return None;
        }
        Moment::new(ticks as u64).ok()
    }

    /// The least number of nanoseconds after which a clock has reached this moment, so that a thread which sleeps until then finds
    /// the request due. `None` if it does not fit 64 bits, and if `hz` is not 1 to 1,000,000,000.
    pub fn to_nanos(self, hz: u32) -> Option<u64>
        ensures value { IfSome result (IsLeastNanos hz self) }
        ensures none { IsNone result ↔ (IsHz hz → ⊥) ⊎ ((nanos : ℕ) → nanos < 2 ^ 64 → ticks_after hz nanos < self) }
    {
        nanos_until(hz, u128::from(self.ticks()))
    }
}

/// The least number of nanoseconds after which `ticks` ticks have passed, as in `Moment::to_nanos`. It is for the `Future` of a
/// pull, which may be later than the last moment.
pub fn nanos_until(hz: u32, ticks: u128) -> Option<u64>
    ensures value { IfSome result (IsLeastNanos hz ticks) }
    ensures none { IsNone result ↔ (IsHz hz → ⊥) ⊎ ((nanos : ℕ) → nanos < 2 ^ 64 → ticks_after hz nanos < ticks) }
{
    if !is_hz(hz) {
        return None;
    }
    // A tick is a nanosecond or more.
    let ticks = u64::try_from(ticks).ok()?;
    let nanos = (u128::from(ticks) * NANOS_PER_SECOND).div_ceil(u128::from(hz));
    u64::try_from(nanos).ok()
}
