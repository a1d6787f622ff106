//! Tests of rates that divide hz, and of moments from a clock.
use crate::same::assert_same;
use dmc_types::clock::nanos_until;
use dmc_types::config::{AtLimit, QueueConfig};
use dmc_types::moment::Moment;
use dmc_types::rates::{FINE_HZ, rate_at_least, rate_at_most};
use std::process::Abort;
use std::test::Fail;

/// The greatest divisor of hz up to a rate, by a count down.
fn count_down(hz: u32, rate: u32) -> Option<u32> {
    for other in (1..=rate).rev() {
        if hz % other == 0 {
            return Some(other);
        }
    }
    None
}

/// The least divisor of hz from a rate on, by a count up.
fn count_up(hz: u32, rate: u32) -> Option<u32> {
    for other in rate..=hz {
        if other > 0 && hz % other == 0 {
            return Some(other);
        }
    }
    None
}

/// Both rates nearest to this one are those that a count finds.
fn assert_nearest(rt: &impl Abort, hz: u32, rate: u32) {
    assert!(rt;
        rate_at_most(hz, rate) == count_down(hz, rate),
        "at most {rate} of {hz}"
    );
    assert!(rt;
        rate_at_least(hz, rate) == count_up(hz, rate),
        "at least {rate} of {hz}"
    );
}

#[test]
fn nearest_rates(rt: HostRuntime) {
    for hz in [1, 2, 97, 1000, 5040] {
        for rate in 1..hz + 3 {
            assert_nearest(&rt, hz, rate);
        }
    }
}

#[test]
fn rates_at_the_limits(rt: HostRuntime) {
    assert!(rt; rate_at_most(1000, 0).is_none());
    assert!(rt; rate_at_most(0, 1).is_none());
    assert!(rt; rate_at_most(1_000_000_001, 1).is_none());
    assert!(rt; rate_at_least(1000, 0).is_none());
    assert!(rt; rate_at_least(1000, 1001).is_none());
    assert!(rt; rate_at_most(1, u32::MAX) == Some(1));
    assert!(rt; rate_at_most(1_000_000_000, u32::MAX) == Some(1_000_000_000));
    assert!(rt; rate_at_least(1_000_000_000, 999_999_999) == Some(1_000_000_000));
    assert!(rt; rate_at_most(999_999_937, 999_999_936) == Some(1));
    assert!(rt; rate_at_least(999_999_937, 2) == Some(999_999_937));
}

#[test]
fn rates_of_a_configuration(rt: HostRuntime) -> Result<(), Fail> {
    let config = QueueConfig::new(1000, 1, 1, AtLimit::Wait)?;
    assert!(rt; config.rate_at_most(777) == Some(500));
    assert!(rt; config.rate_at_least(777) == Some(1000));
    assert!(rt; config.rate_at_most(0).is_none());
    assert!(rt; config.rate_at_least(1001).is_none());
    Ok(())
}

/// The number of divisors of an hz, by going from each to the next.
fn divisor_count(hz: u32) -> u32 {
    let mut last: u32 = 0;
    for count in 0..hz {
        match rate_at_least(hz, last.saturating_add(1)) {
            Some(found) if found > last => last = found,
            _ => return count,
        }
    }
    hz
}

/// Whether from one rate on, up to a million, the next divisor is at most this many thousandths greater.
fn is_dense(hz: u32, from: u32, thousandths: u32) -> bool {
    let mut last = from;
    for _ in from..1_000_000 {
        let Some(next) = rate_at_least(hz, last.saturating_add(1)) else {
            return false;
        };
        if next > 1_000_000 {
            return true;
        }
        if u64::from(next) * 1000 > u64::from(last) * u64::from(1000 + thousandths.min(1000)) {
            return false;
        }
        last = next;
    }
    true
}

#[test]
fn fine_rates(rt: HostRuntime) {
    assert!(rt; divisor_count(FINE_HZ) == 1344);
    for rate in 1..19 {
        assert!(rt; rate_at_most(FINE_HZ, rate) == Some(rate));
    }
    assert!(rt; rate_at_most(FINE_HZ, 19) == Some(18));
    // Each of these ranges begins at a divisor.
    assert!(rt; is_dense(FINE_HZ, 20, 91));
    assert!(rt; is_dense(FINE_HZ, 100, 50));
    assert!(rt; is_dense(FINE_HZ, 1001, 22));
}

/// The ticks of a clock's moment.
fn ticks(hz: u32, nanos: u64) -> Option<u64> {
    Some(Moment::from_nanos(hz, nanos)?.ticks())
}

#[test]
fn clock_moments(rt: HostRuntime) {
    assert!(rt; ticks(1000, 1_999_999) == Some(1));
    assert!(rt; ticks(3, 333_333_333) == Some(0));
    assert!(rt; ticks(3, 333_333_334) == Some(1));
    assert!(rt; ticks(1, u64::MAX) == Some(18_446_744_073));
    assert!(rt; ticks(FINE_HZ, 1_000_000_000) == Some(735_134_400));
    assert!(rt; ticks(1_000_000_000, 1 << 62) == Some(1 << 62));
    assert!(rt; ticks(1_000_000_000, (1 << 62) + 1).is_none());
    assert!(rt; ticks(0, 0).is_none());
    assert!(rt; ticks(1_000_000_001, 0).is_none());
}

/// The least nanoseconds of a moment of this many ticks.
fn nanos(hz: u32, ticks: u64) -> Option<u64> {
    Moment::new(ticks).ok()?.to_nanos(hz)
}

#[test]
fn moments_on_a_clock(rt: HostRuntime) {
    assert!(rt; nanos(1000, 2) == Some(2_000_000));
    assert!(rt; nanos(3, 1) == Some(333_333_334));
    assert!(rt; nanos(1000, 0) == Some(0));
    assert!(rt; nanos(1, 18_446_744_073) == Some(18_446_744_073_000_000_000));
    assert!(rt; nanos(1, 18_446_744_074).is_none());
    assert!(rt; nanos(0, 1).is_none());
    assert!(rt; nanos_until(1_000_000_000, (1 << 62) + 1) == Some((1 << 62) + 1));
    assert!(rt; nanos_until(1000, 1 << 64).is_none());
    assert!(rt; nanos_until(1000, u128::MAX).is_none());
}

#[test]
fn clock_there_and_back(rt: HostRuntime) {
    for hz in [1, 3, 1000, FINE_HZ, 1_000_000_000] {
        for moment in [0, 1, 2, 999, 1_000_001, 1 << 32] {
            let there = nanos(hz, moment).unwrap_or(0);
            assert!(rt;
                ticks(hz, there).is_some_and(|back| back >= moment),
                "{moment} of {hz}"
            );
            assert!(rt;
                there == 0 || ticks(hz, there - 1).is_some_and(|back| back < moment),
                "{moment} of {hz}, a nanosecond before"
            );
        }
    }
}

/// The test of the count itself: a prime hz has two divisors.
#[test]
fn divisors_of_a_prime(rt: HostRuntime) {
    assert_same(&rt, &divisor_count(97), &2);
}
