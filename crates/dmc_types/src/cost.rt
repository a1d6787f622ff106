//! What a request costs.
ghost use Rattle.std.specs.Prelude.{◌≡◌, ◌<◌};
ghost use Rattle.dmc_types.specs.declared.refusal.ValueFault.{ValueFault};

use crate::refusal::ValueFault;
use std::marker::Model;

/// How much of its client's rates a request takes: 1 to 2^32 - 1, in units of the caller's choice, such as requests, blocks of
/// 4 KiB, or microseconds of a device. Rates and weights are then in these units a second (extension; Ceph's term). Contracts
/// see the number.
#[derive(Clone, Copy, Debug, PartialEq, Eq, Hash)]
pub struct Cost {
    units: u32,
}

impl Model for Cost {
    ghost use Rattle.std.specs.Prelude.{ℕ, ◌<◌};

    ghost Value = { ℕ };

    ghost view = { λ c. c.units };

    ghost invariant = { λ c. 0 < c.units };

    ghost inverse = { λ c. record { units = c } };
}

impl Cost {
    /// The cost of a request if only requests are counted.
    pub const ONE: Cost = Cost { units: 1 };

    /// A cost of this many units. It is refused `Cost` if it is 0.
    pub fn new(units: u32) -> Result<Cost, ValueFault>
        ensures ok { 0 < units → result ≡ Ok units }
        ensures refused { units ≡ 0 → result ≡ Err ValueFault.Cost }
    {
        if units == 0 {
            return Err(ValueFault::Cost);
        }
        Ok(Cost { units })
    }

    /// How many units it is.
    pub fn units(self) -> u32
        ensures value { result ≡ self }
        ensures bound { 0 < result }
    {
        self.units
    }
}
