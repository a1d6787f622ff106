//! A client's rates.
ghost use Rattle.std.specs.Prelude.{◌≡◌, ◌<◌, IfSome};
ghost use Rattle.dmc_types.specs.Values.{AreRates, IsRate};
ghost use Rattle.dmc_types.specs.declared.refusal.ValueFault.{ValueFault};

use crate::refusal::ValueFault;
use std::marker::Model;

/// A client's rates, in requests a second, each 1 or more: a reservation (a least rate), a weight (its share of the
/// rest) and a limit (a greatest rate). Contracts see the record of the three.
#[derive(Clone, Copy, Debug, PartialEq, Eq, Hash)]
pub struct ClientInfo {
    reservation: Option<u32>,
    weight: u32,
    limit: Option<u32>,
}

impl Model for ClientInfo {
    ghost use Rattle.dmc_types.specs.Values.{Rates, AreRates};

    ghost Value = { Rates };

    ghost view = { λ i. record { reservation = i.reservation; weight = i.weight; limit = i.limit } };

    ghost invariant = { λ i. AreRates i.reservation i.weight i.limit };

    ghost inverse = { λ i. record { reservation = i.reservation; weight = i.weight; limit = i.limit } };
}

impl ClientInfo {
    /// The rates of a client. They are refused `Rate` where one is 0.
    pub fn new(
        reservation: Option<u32>,
        weight: u32,
        limit: Option<u32>,
    ) -> Result<ClientInfo, ValueFault>
        ensures ok { AreRates reservation weight limit →
            result ≡ Ok (record { reservation = reservation; weight = weight; limit = limit }) }
        ensures refused { (AreRates reservation weight limit → ⊥) → result ≡ Err ValueFault.Rate }
    {
        if reservation == Some(0) || weight == 0 || limit == Some(0) {
            return Err(ValueFault::Rate);
        }
        Ok(ClientInfo {
            reservation,
            weight,
            limit,
        })
    }

    /// The least rate, if there is one.
    pub fn reservation(self) -> Option<u32>
        ensures value { result ≡ self.reservation }
        ensures rate { IfSome result IsRate }
    {
        self.reservation
    }

    /// The share of what the reservations leave.
    pub fn weight(self) -> u32
        ensures value { result ≡ self.weight }
        ensures rate { 0 < result }
    {
        self.weight
    }

    /// The greatest rate, if there is one.
    pub fn limit(self) -> Option<u32>
        ensures value { result ≡ self.limit }
        ensures rate { IfSome result IsRate }
    {
        self.limit
    }
}
