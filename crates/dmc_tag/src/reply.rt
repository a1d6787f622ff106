//! The replies of a queue.
ghost use Rattle.std.specs.Prelude.{◌≡◌, ⊤};

use dmc_types::config::PhaseType;
use dmc_types::cost::Cost;
use dmc_types::ids::{ClientId, Token};
use dmc_types::refusal::Refusal;
use std::alloc::AllocError;

/// The tags of a request: reservation (absent without one), limit and weight.
#[derive(Copy, Debug, PartialEq, Eq)]
pub struct Tags<T> {
    pub r: Option<T>,
    pub l: T,
    pub p: T,
}

impl<T: Copy> Clone for Tags<T> {
    ghost is_clone = { λ x y. y ≡ x };

    ghost is_infallible = { λ _. ⊤ };

    fn clone(&self) -> Result<Tags<T>, AllocError> {
        Ok(*self)
    }
}

/// The reply to a pull.
#[derive(Clone, Copy, Debug, PartialEq, Eq)]
pub enum Pulled {
    /// A request is granted. `beyond` says that it is over its client's limit.
    Returning {
        client: ClientId,
        token: Token,
        phase: PhaseType,
        beyond: bool,
        cost: Cost,
    },
    /// No request is due before this moment, in ticks, and one is due then.
    Future(u128),
    /// Nothing is queued.
    Nothing,
}

/// The reply to a command.
#[derive(Copy, Debug, PartialEq, Eq)]
pub enum Reply<T> {
    Registered,
    Updated,
    /// A request was queued with these tags.
    Tagged(Tags<T>),
    /// A request is granted. `beyond` says that it is over its client's limit.
    Granted {
        client: ClientId,
        token: Token,
        phase: PhaseType,
        beyond: bool,
        cost: Cost,
    },
    /// No request is due before this moment, in ticks, and one is due then.
    Later(u128),
    /// Nothing is queued.
    Nothing,
    /// This many requests were removed.
    Removed(u32),
    /// This many clients became idle, and this many were erased.
    Cleaned {
        idled: u32,
        erased: u32,
    },
    /// The command is refused, and nothing has changed.
    Refused(Refusal),
}

impl<T: Copy> Clone for Reply<T> {
    ghost is_clone = { λ x y. y ≡ x };

    ghost is_infallible = { λ _. ⊤ };

    fn clone(&self) -> Result<Reply<T>, AllocError> {
        Ok(*self)
    }
}
