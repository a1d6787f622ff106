//! Rates in whole ticks. In ticks a rate has to divide hz, and here are the nearest rates that do.
ghost use Rattle.std.specs.Prelude.{◌≡◌, ◌<◌, ◌≤◌, ◌↔◌, ◌⊎◌, IsNone, IfSome};
ghost use Rattle.dmc_types.specs.Clock.{IsHz};
ghost use Rattle.dmc_types.specs.Rates.{IsGreatestAtMost, IsLeastAtLeast};

use crate::limits::MAX_HZ;

/// An hz with 1,344 divisors, for rates that an operator typed. Every rate from 1 to 18 divides it, and of two divisors that
/// follow each other the greater is at most 9.1% above the less from 20 on, 5% from 100 on, and 2.2% from 1,000 on (up to
/// 1,000,000). A tick is 1.36 ns.
pub const FINE_HZ: u32 = 735_134_400;

/// One more than the greatest whole number whose square is below 2^32.
const MAX_ROOT: u32 = 1 << 16;

/// The greatest divisor of `hz` that is at most `rate`, in requests a second: the rate to take for a limit and for a weight.
/// `None` for a rate of 0, and if `hz` is not 1 to 1,000,000,000. It makes at most 31,623 divisions.
///
/// A weight is taken as it was typed, and not multiplied. Shares are in the proportion of the weights only while the sum of all
/// weights is less than the requests a second that are granted by weight.
pub fn rate_at_most(hz: u32, rate: u32) -> Option<u32>
    ensures found { IfSome result (IsGreatestAtMost hz rate) }
    ensures none { IsNone result ↔ (rate ≡ 0) ⊎ (IsHz hz → ⊥) }
{
    if rate == 0 || hz == 0 || u64::from(hz) > MAX_HZ {
        return None;
    }
    Some(greatest_divisor(hz, rate))
}

/// The least divisor of `hz` that is at least `rate`, in requests a second: the rate to take for a reservation. `None` for a rate
/// of 0 and one above `hz`. It makes at most 65,536 divisions, and for an `hz` up to 1,000,000,000 at most 31,623.
pub fn rate_at_least(hz: u32, rate: u32) -> Option<u32>
    ensures found { IfSome result (IsLeastAtLeast hz rate) }
    ensures none { IsNone result ↔ (rate ≡ 0) ⊎ (hz < rate) }
{
    if rate == 0 || rate > hz {
        return None;
    }
    // A divisor is at least the rate exactly if its counterpart is at most hz / rate.
    Some(hz / greatest_divisor(hz, hz / rate))
}

/// The greatest divisor that is at most a bound. Each division finds a divisor up to the root of `hz` and its counterpart.
fn greatest_divisor(hz: u32, most: u32) -> u32
    requires hz { 0 < hz }
    requires most { 0 < most }
    ensures { IsGreatestAtMost hz most result }
{
    let mut best = 1;
    for divisor in 1..=MAX_ROOT {
        let counterpart = hz / divisor;
        if counterpart < divisor {
            break;
        }
        if hz % divisor != 0 {
            continue;
        }
        if counterpart <= most {
            return counterpart;
        }
        if divisor <= most {
            best = divisor;
        }
    }
    best
}
