//! A client's first request.
ghost use Rattle.std.specs.Prelude.{◌≡◌, ⊤};
ghost use Rattle.dmc_head_index.specs.Heads as heads_of;

use dmc_tag::rank::{LimitRank, ReadyRank, TagRank};
use dmc_tag::reply::Tags;
use dmc_types::ids::ClientId;
use std::alloc::AllocError;

/// A client, the tags of its first request, and the ready mark. The mark is true only if the L of the request is known to be
/// at most the last effective moment.
#[derive(Copy, Debug)]
pub struct Head<T> {
    pub client: ClientId,
    pub tags: Tags<T>,
    pub ready: bool,
}

impl<T: Copy> Clone for Head<T> {
    ghost is_clone = { λ x y. y ≡ x };

    ghost is_infallible = { λ _. ⊤ };

    fn clone(&self) -> Result<Head<T>, AllocError> {
        Ok(*self)
    }
}

impl<T: Copy> Head<T> {
    /// Its rank by R.
    pub fn tag_rank(&self) -> TagRank<T>
        ensures { result ≡ heads_of.tag_rank self.now }
    {
        TagRank {
            tag: self.tags.r,
            client: self.client,
        }
    }

    /// Its rank by L, unready ones first.
    pub fn limit_rank(&self) -> LimitRank<T>
        ensures { result ≡ heads_of.limit_rank self.now }
    {
        LimitRank {
            ready: self.ready,
            tag: self.tags.l,
            client: self.client,
        }
    }

    /// Its rank by P, ready ones first.
    pub fn ready_rank(&self) -> ReadyRank<T>
        ensures { result ≡ heads_of.ready_rank self.now }
    {
        ReadyRank {
            ready: self.ready,
            tag: self.tags.p,
            client: self.client,
        }
    }
}
