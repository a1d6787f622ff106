//! Time, which the caller passes in.
ghost use Rattle.std.specs.Prelude.{◌≡◌, ◌<◌, ◌≤◌, max};
ghost use Rattle.dmc_types.specs.Limits.{max_moment};
ghost use Rattle.dmc_types.specs.declared.refusal.ValueFault.{ValueFault};

use crate::limits::MAX_MOMENT;
use crate::refusal::ValueFault;
use std::marker::Model;

/// A moment in ticks, at most 2^62. Contracts see it as that number.
#[derive(Clone, Copy, Debug, PartialEq, Eq, PartialOrd, Ord, Hash)]
pub struct Moment {
    ticks: u64,
}

impl Model for Moment {
    ghost use Rattle.std.specs.Prelude.{ℕ, ◌≤◌};
    ghost use Rattle.dmc_types.specs.Limits.{max_moment};

    ghost Value = { ℕ };

    ghost view = { λ m. m.ticks };

    ghost invariant = { λ m. m.ticks ≤ max_moment };

    ghost inverse = { λ n. record { ticks = n } };
}

impl Moment {
    /// The moment of this many ticks. It is refused `Moment` above 2^62.
    pub fn new(ticks: u64) -> Result<Moment, ValueFault>
        ensures ok { ticks ≤ max_moment → result ≡ Ok ticks }
        ensures refused { max_moment < ticks → result ≡ Err ValueFault.Moment }
    {
        if ticks > MAX_MOMENT {
            return Err(ValueFault::Moment);
        }
        Ok(Moment { ticks })
    }

    /// The moment at which time starts.
    pub fn zero() -> Moment
        ensures { result ≡ 0 }
    {
        Moment { ticks: 0 }
    }

    /// The later of the two moments.
    pub fn later(self, other: Moment) -> Moment
        ensures { result ≡ max self other }
    {
        if other.ticks > self.ticks {
            other
        } else {
            self
        }
    }

    /// The number of ticks.
    pub fn ticks(self) -> u64
        ensures value { result ≡ self }
        ensures bound { result ≤ max_moment }
    {
        self.ticks
    }
}

/// The moment of this many ticks, as a `Future` has them. It is refused `Moment` above 2^62.
impl TryFrom<u128> for Moment {
    ghost use Rattle.std.specs.Prelude.{◌≡◌, ◌≤◌, ◌<◌, Ok, Err};
    ghost use Rattle.dmc_types.specs.Limits.{max_moment};
    ghost use Rattle.dmc_types.specs.declared.refusal.ValueFault.{ValueFault};

    type Error = ValueFault;

    ghost try_from_gives = { λ ticks moment. (ticks ≤ max_moment → moment ≡ Ok ticks) × (max_moment < ticks → moment ≡ Err ValueFault.Moment) };

    fn try_from(ticks: u128) -> Result<Moment, ValueFault> {
        match u64::try_from(ticks) {
            Ok(ticks) => Moment::new(ticks),
            Err(_) => Err(ValueFault::Moment),
        }
    }
}
