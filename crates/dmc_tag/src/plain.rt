//! What a plain state keeps of a client, its queued requests and its previous tags; and how far the service has come.
ghost use Rattle.std.specs.Prelude.{◌≡◌, ⊤};

use crate::reply::Tags;
use dmc_types::cost::Cost;
use dmc_types::ids::Token;
use std::alloc::AllocError;

/// How far each tag of a request may fall if requests before it are cancelled (extension): when it arrives, the tag less what it
/// was compared with. Without an R it is that of the previous R.
#[derive(Copy, Debug)]
pub struct Slack<T> {
    pub r: T,
    pub l: T,
    pub p: T,
}

impl<T: Copy> Clone for Slack<T> {
    ghost is_clone = { λ x y. y ≡ x };

    ghost is_infallible = { λ _. ⊤ };

    fn clone(&self) -> Result<Slack<T>, AllocError> {
        Ok(*self)
    }
}

/// A queued request of a client.
#[derive(Copy, Debug)]
pub struct QueuedRequest<T> {
    pub token: Token,
    pub cost: Cost,
    pub tags: Tags<T>,
    pub slack: Slack<T>,
}

impl<T: Copy> Clone for QueuedRequest<T> {
    ghost is_clone = { λ x y. y ≡ x };

    ghost is_infallible = { λ _. ⊤ };

    fn clone(&self) -> Result<QueuedRequest<T>, AllocError> {
        Ok(*self)
    }
}

/// The tags of a client's last request, less what has been subtracted since. They are 0 at registration.
#[derive(Copy, Debug)]
pub struct Previous<T> {
    pub r: T,
    pub l: T,
    pub p: T,
    /// The slack of that request.
    pub slack: Slack<T>,
    /// Whether it was cancelled.
    pub cancelled: bool,
}

impl<T: Copy> Clone for Previous<T> {
    ghost is_clone = { λ x y. y ≡ x };

    ghost is_infallible = { λ _. ⊤ };

    fn clone(&self) -> Result<Previous<T>, AllocError> {
        Ok(*self)
    }
}

/// How far the service has come, if shares are in virtual time. Under `Shares::Clock` both tags stay 0 (extension: start-time fair
/// queueing).
#[derive(Copy, Debug)]
pub struct Progress<T> {
    /// The virtual time: the greatest P of all requests that were granted by weight; or what was furthest when a request came and
    /// found nothing queued, if that is greater.
    pub virtual_time: T,
    /// The greatest P of all requests that were queued.
    pub furthest: T,
}

impl<T: Copy> Clone for Progress<T> {
    ghost is_clone = { λ x y. y ≡ x };

    ghost is_infallible = { λ _. ⊤ };

    fn clone(&self) -> Result<Progress<T>, AllocError> {
        Ok(*self)
    }
}
