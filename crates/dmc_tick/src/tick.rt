//! The tick tag.
ghost use Rattle.std.specs.Prelude.{◌≡◌, ◌*◌, ◌≤◌, ◌+ℤ◌, ◌-ℤ◌, pos, true, unsigned_abs};
ghost use Rattle.std.proofs.Common.{refl};
ghost use Rattle.std.proofs.lemmas.Cmp.{int_cmp_total};
ghost use Rattle.std.specs.Cmp.{partial_order_from_agreeing_total, partial_equiv_from_equiv, eq_by_cmp_equiv};
ghost use Rattle.std.specs.Ordering.{as_partial_cmp, eq_by_cmp, int_cmp};
ghost use Rattle.dmc_tick.specs.Tick.{greatest, tick, tick_ops, tick_fraction, IsTickValue};
ghost use Rattle.dmc_tick.specs.TickExact.{tick_exact, tick_whole};

use dmc_tag::tag::Tag;
use dmc_types::moment::Moment;
use std::cmp::Ordering;
use std::marker::Model;

/// A whole number of ticks, of absolute value at most 2^90. Contracts see it as that number.
///
/// It is stored as the number plus 2^90, which is not below 0, in two words. So it is aligned to 8 bytes, and a record of tags or
/// an event is smaller than with an `i128`, which is aligned to 16.
#[derive(Clone, Copy, Debug)]
pub struct TickTag {
    high: u64,
    low: u64,
}

impl Model for TickTag {
    ghost use Rattle.std.specs.Prelude.{ℤ, ◌*◌, ◌<◌, ◌≤◌};
    ghost use Rattle.dmc_tick.specs.Tick.{greatest};
    ghost use Rattle.dmc_tick.specs.Words.{word, number, raised, high_word, low_word, high_is, low_is};

    ghost Value = { ℤ };

    ghost view = { λ a. number a.high a.low };

    ghost invariant = { λ a. (raised a.high a.low ≤ 2 * greatest) × (a.low < word) };

    ghost inverse = { λ z. record { high = high_word z; low = low_word z } };

    ghost inverse_ok = { λ a h i. record { high = high_is a.high a.low h.1 i; low = low_is a.high a.low h.1 i } };
}

/// The greatest absolute value of a tag.
const GREATEST: i128 = 1 << 90;

/// How many numbers a word has.
pub(crate) const WORD: u128 = 1 << 64;

impl TickTag {
    /// The tag 0.
    pub(crate) const ZERO: TickTag = TickTag {
        high: 1 << 26,
        low: 0,
    };

    /// The tag of this many ticks. `None` above 2^90 or below -2^90.
    pub fn new(ticks: i128) -> Option<TickTag>
        ensures { result ≡ tick ticks }
    {
        if ticks < -GREATEST || ticks > GREATEST {
            return None;
        }
        Some(TickTag::of(ticks))
    }

    /// The number of ticks.
    pub fn ticks(self) -> i128
        ensures value { result ≡ self }
        ensures bound { unsigned_abs result ≤ greatest }
    {
        self.raised() as i128 - GREATEST
    }

    /// The tag of this many ticks, which are in its range.
    fn of(ticks: i128) -> TickTag
        requires { unsigned_abs ticks ≤ greatest }
        ensures { result ≡ ticks }
    {
        TickTag::of_raised((ticks + GREATEST) as u128)
    }

    /// The tag of this many ticks plus 2^90.
    pub(crate) fn of_raised(raised: u128) -> TickTag
        requires { raised ≤ 2 * greatest }
        ensures { result ≡ pos raised -ℤ pos greatest }
    {
        TickTag {
            high: (raised / WORD) as u64,
            low: (raised % WORD) as u64,
        }
    }

    /// The number of ticks plus 2^90.
    pub(crate) fn raised(self) -> u128
        ensures value { pos result ≡ self +ℤ pos greatest }
        ensures bound { result ≤ 2 * greatest }
    {
        self.high as u128 * WORD + self.low as u128
    }
}

impl Ord for TickTag {
    ghost cmp = { int_cmp };

    ghost total = { int_cmp_total };

    ghost matches_partial_cmp = { λ a b. refl };

    ghost matches_eq = { λ a b. refl };

    fn cmp(&self, other: &TickTag) -> Ordering {
        self.raised().cmp(&other.raised())
    }
}

impl PartialOrd for TickTag {
    ghost partial_cmp = { as_partial_cmp int_cmp };

    ghost laws = { partial_order_from_agreeing_total int_cmp int_cmp_total (λ a b. refl) (λ a b. refl) };

    fn partial_cmp(&self, other: &TickTag) -> Option<Ordering> {
        Some(self.cmp(other))
    }
}

impl PartialEq for TickTag {
    ghost eq = { eq_by_cmp int_cmp };

    ghost laws = { partial_equiv_from_equiv (eq_by_cmp_equiv int_cmp_total) };

    fn eq(&self, other: &TickTag) -> bool {
        self.cmp(other).is_eq()
    }
}

impl Eq for TickTag {
    ghost laws = { eq_by_cmp_equiv int_cmp_total };
}

impl Tag for TickTag {
    ghost ops = { tick_ops };

    ghost fraction = { tick_fraction };

    ghost is_value = { IsTickValue };

    ghost whole = { true };

    ghost compares = { λ a b. refl };

    ghost exact = { tick_exact };

    ghost interval = { λ e. tick_whole };

    fn is_whole() -> bool {
        true
    }

    fn of_moment(at: Moment) -> TickTag {
        TickTag::of(at.ticks() as i128)
    }

    fn spacing(hz: u32, rate: u32) -> Option<TickTag> {
        if rate == 0 || !hz.is_multiple_of(rate) {
            return None;
        }
        TickTag::new((hz / rate) as i128)
    }

    fn steps(self, k: u32) -> Option<TickTag> {
        TickTag::new(k as i128 * self.ticks())
    }

    fn plus(self, other: TickTag) -> Option<TickTag> {
        TickTag::new(self.ticks() + other.ticks())
    }

    fn minus(self, other: TickTag) -> Option<TickTag> {
        TickTag::new(self.ticks() - other.ticks())
    }

    fn ceil(self) -> i128 {
        self.ticks()
    }
}
