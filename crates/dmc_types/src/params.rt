//! What a request carries: the two counts that it is stamped with, and its cost.
ghost use Rattle.std.specs.Prelude.{◌≡◌, ◌<◌, ◌≤◌, IsNone};
ghost use Rattle.dmc_types.specs.Limits.{max_count};
ghost use Rattle.dmc_types.specs.Values.{own_count, with_returned as params_with_returned};
ghost use Rattle.dmc_types.specs.declared.refusal.ValueFault.{ValueFault};

use crate::config::Counting;
use crate::cost::Cost;
use crate::refusal::ValueFault;
use std::marker::Model;

/// The two counts of a stamp, which are the client's completions since its last stamp to that server and those of them in the
/// constraint phase, in units of cost; and the cost of the request itself. `rho` is at most `delta`. Contracts see the record of
/// the three.
#[derive(Clone, Copy, Debug, PartialEq, Eq, Hash)]
pub struct ReqParams {
    delta: u32,
    rho: u32,
    cost: Cost,
}

impl Model for ReqParams {
    ghost use Rattle.std.specs.Prelude.{◌≤◌};
    ghost use Rattle.dmc_types.specs.Values.{Params};

    ghost Value = { Params };

    ghost view = { λ p. record { delta = p.delta; rho = p.rho; cost = p.cost } };

    ghost invariant = { λ p. p.rho ≤ p.delta };

    ghost inverse = { λ p. record { delta = p.delta; rho = p.rho; cost = p.cost } };
}

impl ReqParams {
    /// Both counts, for a request of cost 1. They are refused `Params` if `rho` is above `delta`.
    pub fn new(delta: u32, rho: u32) -> Result<ReqParams, ValueFault>
        ensures ok { rho ≤ delta → result ≡ Ok (record { delta = delta; rho = rho; cost = 1 }) }
        ensures refused { delta < rho → result ≡ Err ValueFault.Params }
    {
        if rho > delta {
            return Err(ValueFault::Params);
        }
        Ok(ReqParams {
            delta,
            rho,
            cost: Cost::ONE,
        })
    }

    /// The same counts for a request of this cost.
    pub fn with_cost(self, cost: Cost) -> ReqParams
        ensures { result ≡ record self { cost = cost } }
    {
        ReqParams { cost, ..self }
    }

    /// The same request, with the counts of `returned` in its stamp besides: of a request to the same server that was refused or
    /// lost, and that is given up. Its completions are counted, so that it costs its client nothing and hides nothing; in the form
    /// `Others` its own cost is left out, since it was not served. `None` if `delta` would pass 2^32 - 1 (extension).
    pub fn with_returned(self, returned: ReqParams, counting: Counting) -> Option<ReqParams>
        ensures fits { (params_with_returned counting returned self).delta ≤ max_count → result ≡ Some (params_with_returned counting returned self) }
        ensures full { max_count < (params_with_returned counting returned self).delta → IsNone result }
    {
        let own = own_count(returned, counting);
        let delta = self.delta.checked_add(returned.delta.saturating_sub(own))?;
        let rho = self.rho + returned.rho.saturating_sub(own);
        Some(ReqParams { delta, rho, ..self })
    }

    /// The completions at all servers, in units of cost.
    pub fn delta(self) -> u32
        ensures { result ≡ self.delta }
    {
        self.delta
    }

    /// The completions in the constraint phase, in units of cost.
    pub fn rho(self) -> u32
        ensures value { result ≡ self.rho }
        ensures bound { result ≤ self.delta }
    {
        self.rho
    }

    /// The cost of the request.
    pub fn cost(self) -> Cost
        ensures { result ≡ self.cost }
    {
        self.cost
    }
}

/// What a request added to the counts of its own stamp.
fn own_count(params: ReqParams, counting: Counting) -> u32
    ensures { result ≡ own_count counting params.cost }
{
    match counting {
        Counting::All => 0,
        Counting::Others => params.cost.units(),
    }
}
