//! Events: what happened at a queue.
ghost use Rattle.std.specs.Prelude.{◌≡◌, ⊤};

use crate::reply::Reply;
use dmc_types::command::Command;
use dmc_types::ids::WorkerId;
use std::alloc::AllocError;

/// A command, the worker that gave it, and the reply.
#[derive(Copy, Debug, PartialEq, Eq)]
pub struct Event<T> {
    pub worker: WorkerId,
    pub command: Command,
    pub reply: Reply<T>,
}

impl<T: Copy> Clone for Event<T> {
    ghost is_clone = { λ x y. y ≡ x };

    ghost is_infallible = { λ _. ⊤ };

    fn clone(&self) -> Result<Event<T>, AllocError> {
        Ok(*self)
    }
}
