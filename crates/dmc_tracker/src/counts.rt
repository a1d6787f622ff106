//! Two counts that go together: what every tracker adds up, and what it stamps.
ghost use Rattle.std.specs.Prelude.{◌≡◌, ◌+◌, ◌-◌, ◌<◌, ◌≤◌, ◌^◌};
ghost use Rattle.dmc_types.specs.Limits.{max_count};
ghost use Rattle.dmc_types.specs.Values.{no_counts, counts_of, params_with};
ghost use Rattle.dmc_tracker.specs.TrackerList.{plus, completed_in, own_share};
ghost use Rattle.dmc_tracker.specs.Parts.{minus};

use dmc_types::config::{Counting, PhaseType};
use dmc_types::cost::Cost;
use dmc_types::params::ReqParams;
use std::marker::Model;

/// Sums of the two counts of stamps: `delta` of all completions, `rho` of those of them in the constraint phase, both in units of
/// cost. A tracker keeps such a sum of all that it counted, and one for each server as it was at the last stamp there: the next
/// stamp carries the difference.
#[derive(Clone, Copy, Debug, PartialEq, Eq)]
pub struct Counts {
    pub delta: u64,
    pub rho: u64,
}

impl Model for Counts {
    ghost use Rattle.dmc_types.specs.Values.{Counts};

    ghost Value = { Counts };

    ghost view = { λ c. record { delta = c.delta; rho = c.rho } };

    ghost inverse = { λ p. record { delta = p.delta; rho = p.rho } };
}

impl Counts {
    /// No response.
    pub fn none() -> Counts
        ensures { result ≡ no_counts }
    {
        Counts { delta: 0, rho: 0 }
    }

    /// The two counts that a stamp carries.
    pub fn of_stamp(params: ReqParams) -> Counts
        ensures { result ≡ counts_of params }
    {
        Counts {
            delta: u64::from(params.delta()),
            rho: u64::from(params.rho()),
        }
    }

    /// A response of this cost.
    pub fn of_response(phase: PhaseType, cost: Cost) -> Counts
        ensures { result ≡ completed_in phase cost }
    {
        let delta = u64::from(cost.units());
        let rho = match phase {
            PhaseType::Reservation => delta,
            PhaseType::Priority => 0,
        };
        Counts { delta, rho }
    }

    /// What a stamp counts for its own request, of this cost.
    pub fn own_share(counting: Counting, cost: Cost) -> Counts
        ensures { result ≡ own_share counting cost }
    {
        match counting {
            Counting::All => Counts::none(),
            Counting::Others => {
                let own = u64::from(cost.units());
                Counts {
                    delta: own,
                    rho: own,
                }
            }
        }
    }

    /// The sums.
    pub fn plus(self, other: Counts) -> Counts
        requires delta { self.delta + other.delta < 2 ^ 64 }
        requires rho { self.rho + other.rho < 2 ^ 64 }
        ensures { result ≡ plus self other }
    {
        Counts {
            delta: self.delta + other.delta,
            rho: self.rho + other.rho,
        }
    }

    /// The differences.
    pub fn minus(self, other: Counts) -> Counts
        requires delta { other.delta ≤ self.delta }
        requires rho { other.rho ≤ self.rho }
        ensures { result ≡ minus self other }
    {
        Counts {
            delta: self.delta - other.delta,
            rho: self.rho - other.rho,
        }
    }

    /// The stamp that carries these counts, for a request of this cost.
    pub fn stamp(self, cost: Cost) -> ReqParams
        requires delta { self.delta ≤ max_count }
        requires rho { self.rho ≤ self.delta }
        ensures { result ≡ params_with self cost }
    {
        let params = ReqParams::new(self.delta as u32, self.rho as u32).unwrap();
        params.with_cost(cost)
    }
}
