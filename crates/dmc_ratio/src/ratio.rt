//! The ratio tag.
ghost use Rattle.std.specs.Prelude.{◌≡◌, ◌*◌, ◌<◌, ◌≤◌, ◌^◌, ◌*ℤ◌, false, pos, unsigned_abs, T};
ghost use Rattle.std.proofs.Common.{refl};
ghost use Rattle.std.proofs.lemmas.Bool.{false≢true};
ghost use Rattle.std.specs.Cmp.{partial_order_from_agreeing_total};
ghost use Rattle.std.specs.Ordering.{as_partial_cmp};
ghost use Rattle.dmc_tag.specs.Tag.{Gives};
ghost use Rattle.dmc_ratio.specs.Lowest.{is_lowest, with_sign};
ghost use Rattle.dmc_ratio.specs.Ratio.{max_numer, max_denom, reduced, ratio_ops, ratio_fraction, IsRatioValue};
ghost use Rattle.dmc_ratio.specs.RatioExact.{ratio_exact};
ghost use Rattle.dmc_ratio.specs.RatioOrder.{ratio_total, ratio_matches_eq};

use crate::divisor::gcd;
use dmc_tag::tag::Tag;
use dmc_types::moment::Moment;
use std::cmp::Ordering;
use std::marker::Model;

/// An exact fraction of ticks in lowest terms: a numerator of absolute value at most 2^90 over a denominator from 1 to
/// 2^32. Contracts see it as that fraction.
#[derive(Clone, Copy, Debug, PartialEq, Eq)]
pub struct RatioTag {
    numer: i128,
    denom: u64,
    ghost lowest: { T (is_lowest numer denom) },
}

impl Model for RatioTag {
    ghost use Rattle.std.specs.Prelude.{◌≤◌, unsigned_abs};
    ghost use Rattle.dmc_ratio.specs.Ratio.{Ratio, ratio_code, max_numer, max_denom};

    ghost Value = { Ratio };

    ghost coded = { ratio_code };

    ghost view = { λ a. record { numer = a.numer; denom = a.denom; lowest = a.lowest } };

    ghost invariant = { λ a. (unsigned_abs a.numer ≤ max_numer) × (a.denom ≤ max_denom) };

    ghost inverse = { λ r. record { numer = r.numer; denom = r.denom; lowest = r.lowest } };
}

/// The greatest absolute value of a numerator.
const MAX_NUMER: u128 = 1 << 90;

/// The greatest denominator.
const MAX_DENOM: u128 = 1 << 32;

impl RatioTag {
    /// The tag of a fraction. `None` for the denominator 0, and if the fraction in lowest terms has a numerator above 2^90 or
    /// below -2^90, or a denominator above 2^32.
    pub fn new(numer: i128, denom: u64) -> Option<RatioTag>
        ensures value { result ≡ reduced numer denom }
        ensures exact { Gives ratio_fraction IsRatioValue result (record { numer = numer; denom = denom }) }
    {
        RatioTag::reduce(numer, denom as u128)
    }

    /// The numerator in lowest terms.
    pub fn numer(self) -> i128
        ensures value { result ≡ self.numer }
        ensures bound { unsigned_abs result ≤ max_numer }
    {
        self.numer
    }

    /// The denominator in lowest terms.
    pub fn denom(self) -> u64
        ensures value { result ≡ self.denom }
        ensures positive { 0 < result }
        ensures bound { result ≤ max_denom }
    {
        self.denom
    }

    /// The tag of a fraction with two numbers of any size. Its range is checked in lowest terms.
    fn reduce(numer: i128, denom: u128) -> Option<RatioTag>
        ensures { result ≡ reduced numer denom }
    {
        if denom == 0 {
            return None;
        }
        let size = numer.unsigned_abs();
        let common = gcd(size, denom);
        let least_size = size / common;
        let least_denom = denom / common;
        if least_size > MAX_NUMER || least_denom > MAX_DENOM {
            return None;
        }
        Some(RatioTag {
            numer: with_sign(least_size, numer < 0),
            denom: least_denom as u64,
        })
    }

    /// The cross product: this numerator times the other denominator.
    fn cross(self, other: RatioTag) -> i128
        ensures value { result ≡ self.numer *ℤ pos other.denom }
        ensures bound { unsigned_abs result ≤ 2 ^ 122 }
    {
        self.numer() * other.denom() as i128
    }

    /// A common denominator, over which the numerators are the cross products.
    fn shared_denom(self, other: RatioTag) -> u128
        ensures { result ≡ self.denom * other.denom }
    {
        self.denom() as u128 * other.denom() as u128
    }
}

/// The number of this absolute value, below 0 or not.
fn with_sign(size: u128, negative: bool) -> i128
    requires { size ≤ max_numer }
    ensures { result ≡ with_sign size negative }
{
    if negative {
        -(size as i128)
    } else {
        size as i128
    }
}

impl Ord for RatioTag {
    ghost cmp = { ratio_ops.compare };

    ghost total = { ratio_total };

    ghost matches_partial_cmp = { λ a b. refl };

    ghost matches_eq = { ratio_matches_eq };

    fn cmp(&self, other: &RatioTag) -> Ordering {
        self.cross(*other).cmp(&other.cross(*self))
    }
}

impl PartialOrd for RatioTag {
    ghost partial_cmp = { as_partial_cmp ratio_ops.compare };

    ghost laws = { partial_order_from_agreeing_total ratio_ops.compare ratio_total (λ a b. refl) ratio_matches_eq };

    fn partial_cmp(&self, other: &RatioTag) -> Option<Ordering> {
        Some(self.cmp(other))
    }
}

impl Tag for RatioTag {
    ghost ops = { ratio_ops };

    ghost fraction = { ratio_fraction };

    ghost is_value = { IsRatioValue };

    ghost whole = { false };

    ghost compares = { λ a b. refl };

    ghost exact = { ratio_exact };

    ghost interval = { λ e. absurd (false≢true e) };

    fn is_whole() -> bool {
        false
    }

    fn of_moment(at: Moment) -> RatioTag {
        RatioTag {
            numer: at.ticks() as i128,
            denom: 1,
        }
    }

    fn spacing(hz: u32, rate: u32) -> Option<RatioTag> {
        RatioTag::new(hz as i128, rate as u64)
    }

    fn steps(self, k: u32) -> Option<RatioTag> {
        RatioTag::reduce(k as i128 * self.numer(), self.denom() as u128)
    }

    fn plus(self, other: RatioTag) -> Option<RatioTag> {
        let sum = self.cross(other) + other.cross(self);
        RatioTag::reduce(sum, self.shared_denom(other))
    }

    fn minus(self, other: RatioTag) -> Option<RatioTag> {
        let difference = self.cross(other) - other.cross(self);
        RatioTag::reduce(difference, self.shared_denom(other))
    }

    fn ceil(self) -> i128 {
        let size = self.numer().unsigned_abs();
        let denom = self.denom() as u128;
        if self.numer() < 0 {
            with_sign(size / denom, true)
        } else {
            with_sign(size.div_ceil(denom), false)
        }
    }
}
