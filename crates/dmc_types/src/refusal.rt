//! Refusals of values and of commands.
ghost use Rattle.std.specs.Prelude.{◌≡◌};
ghost use Rattle.dmc_types.specs.declared.refusal.QueueFault.TheVariants.{Refused, Memory};
ghost use Rattle.dmc_types.specs.declared.refusal.Refusal.TheVariants.{Inexact};

use std::alloc::AllocError;
use thiserror::Error;

/// A value is out of its limits.
#[derive(Clone, Copy, Debug, PartialEq, Eq, Error)]
pub enum ValueFault {
    /// The moment is above 2^62 ticks.
    #[error("the moment is past 2^62 ticks")]
    Moment,
    /// Rho is above delta.
    #[error("rho is past delta")]
    Params,
    /// The cost is 0.
    #[error("the cost is 0")]
    Cost,
    /// A rate is 0.
    #[error("the rate is 0")]
    Rate,
    /// The configuration is out of its limits.
    #[error("the configuration is out of its limits")]
    Config,
}

/// One of a client's rates.
#[derive(Clone, Copy, Debug, PartialEq, Eq, Error)]
pub enum Field {
    #[error("reservation")]
    Reservation,
    #[error("weight")]
    Weight,
    #[error("limit")]
    Limit,
}

/// The reason why a queue refuses a command. A refused command changes nothing.
#[derive(Clone, Copy, Debug, PartialEq, Eq, Error)]
pub enum Refusal {
    /// The client is registered already.
    #[error("the client is registered already")]
    Known,
    /// The client is not registered.
    #[error("the client is not registered")]
    Unknown,
    /// The spacing of this rate is no value of the tag type.
    #[error("the spacing of the {0} is no value of the tag type")]
    Inexact(Field),
    /// 65,536 clients are registered already.
    #[error("65,536 clients are registered")]
    Clients,
    /// 2^20 requests are queued already.
    #[error("2^20 requests are queued")]
    QueueFull,
    /// A sum that the command needs is no value of the tag type.
    #[error("a sum is no value of the tag type")]
    Range,
    /// The update gives or takes a reservation while the client has a queued request.
    #[error("the client has a queued request")]
    Busy,
    /// The request would wait for its client's limit longer than the queue's threshold (`AtLimit::Reject`).
    #[error("the request is over its client's limit")]
    OverLimit,
}

/// The reason why a queue's call that allocates fails.
#[derive(Clone, Copy, Debug, PartialEq, Eq, Error)]
pub enum QueueFault {
    /// The rules refuse the command.
    #[error("{0}")]
    Refused(Refusal),
    /// An allocation failed. Nothing has changed.
    #[error("out of memory")]
    Memory,
}

impl From<Refusal> for QueueFault {
    ghost from_gives = { λ refusal fault. fault ≡ Refused refusal };

    fn from(refusal: Refusal) -> QueueFault {
        QueueFault::Refused(refusal)
    }
}

impl From<AllocError> for QueueFault {
    ghost from_gives = { λ _ fault. fault ≡ Memory };

    fn from(_: AllocError) -> QueueFault {
        QueueFault::Memory
    }
}

impl From<Field> for Refusal {
    ghost from_gives = { λ field refusal. refusal ≡ Inexact field };

    fn from(field: Field) -> Refusal {
        Refusal::Inexact(field)
    }
}
