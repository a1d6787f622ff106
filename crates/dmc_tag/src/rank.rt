//! Ranks, by which the indexes order clients. Each compares its fields in turn.
ghost use Rattle.std.specs.Prelude.{◌≡◌, ⊤};
ghost use Rattle.std.specs.Cmp.{IsTotalOrder};
ghost use Rattle.std.specs.Ordering.{is_lt, ordering_then};
ghost use Rattle.std.specs.declared.cmp.Ordering.{Ordering};
ghost use Rattle.dmc_tag.specs.Rank.{client_cmp, tag_rank_cmp, tag_rank_total, limit_rank_cmp, limit_rank_total, ready_rank_cmp, ready_rank_total};

use dmc_types::ids::ClientId;
use std::alloc::AllocError;
use std::cmp::Ordering;

/// A lawful total order. An index asks only which of two ranks is below the other.
pub trait Rank: Copy {
    /// The order.
    ghost cmp: { Self → Self → Ordering };

    /// Whether this rank is below another.
    fn is_below(&self, other: &Self) -> bool
        ensures { result ≡ is_lt (cmp self.now other.now) };

    /// The order is total.
    ghost total: { IsTotalOrder cmp };
}

/// A rank in another form, which takes fewer bytes and is compared faster.
pub trait PackedRank<R: Rank>: Rank {
    /// The rank that is stored.
    ghost rank_of: { Self → R };

    /// What stores a rank.
    ghost packed: { R → Self };

    /// Stores a rank.
    fn pack(rank: R) -> Self
        ensures { result ≡ packed rank };

    /// The stored rank.
    fn rank(self) -> R
        ensures { result ≡ rank_of self };

    /// What stores a rank has that rank.
    ghost stores: { (rank : R) → rank_of (packed rank) ≡ rank };

    /// The order is that of the stored ranks.
    ghost same_order: { (a b : Self) → Self.cmp a b ≡ R.cmp (rank_of a) (rank_of b) };
}

/// By tag, and then by client. An absent tag is last.
#[derive(Copy, Debug)]
pub struct TagRank<T> {
    pub tag: Option<T>,
    pub client: ClientId,
}

impl<T: Copy> Clone for TagRank<T> {
    ghost is_clone = { λ x y. y ≡ x };

    ghost is_infallible = { λ _. ⊤ };

    fn clone(&self) -> Result<TagRank<T>, AllocError> {
        Ok(*self)
    }
}

/// Unready first, then by tag, and then by client. The fields are in an order that takes few bytes.
#[derive(Copy, Debug)]
pub struct LimitRank<T> {
    pub tag: T,
    pub client: ClientId,
    pub ready: bool,
}

impl<T: Copy> Clone for LimitRank<T> {
    ghost is_clone = { λ x y. y ≡ x };

    ghost is_infallible = { λ _. ⊤ };

    fn clone(&self) -> Result<LimitRank<T>, AllocError> {
        Ok(*self)
    }
}

/// Ready first, then by tag, and then by client. The fields are in an order that takes few bytes.
#[derive(Copy, Debug)]
pub struct ReadyRank<T> {
    pub tag: T,
    pub client: ClientId,
    pub ready: bool,
}

impl<T: Copy> Clone for ReadyRank<T> {
    ghost is_clone = { λ x y. y ≡ x };

    ghost is_infallible = { λ _. ⊤ };

    fn clone(&self) -> Result<ReadyRank<T>, AllocError> {
        Ok(*self)
    }
}

impl<T: Copy + Ord> Rank for TagRank<T> {
    ghost cmp = { tag_rank_cmp T.cmp };

    ghost total = { tag_rank_total T.total };

    fn is_below(&self, other: &TagRank<T>) -> bool {
        match (&self.tag, &other.tag) {
            (None, None) => self.client.0 < other.client.0,
            (None, Some(_)) => false,
            (Some(_), None) => true,
            (Some(a), Some(b)) => is_below_by_tag(a, b, self.client, other.client),
        }
    }
}

impl<T: Copy + Ord> Rank for LimitRank<T> {
    ghost cmp = { limit_rank_cmp T.cmp };

    ghost total = { limit_rank_total T.total };

    fn is_below(&self, other: &LimitRank<T>) -> bool {
        if self.ready != other.ready {
            return other.ready;
        }
        is_below_by_tag(&self.tag, &other.tag, self.client, other.client)
    }
}

impl<T: Copy + Ord> Rank for ReadyRank<T> {
    ghost cmp = { ready_rank_cmp T.cmp };

    ghost total = { ready_rank_total T.total };

    fn is_below(&self, other: &ReadyRank<T>) -> bool {
        if self.ready != other.ready {
            return self.ready;
        }
        is_below_by_tag(&self.tag, &other.tag, self.client, other.client)
    }
}

/// Whether one tag is below another, or the tags are equal and its client is below.
fn is_below_by_tag<T: Ord>(a: &T, b: &T, a_client: ClientId, b_client: ClientId) -> bool
    ensures { result ≡ is_lt (ordering_then (T.cmp a.now b.now) (client_cmp a_client b_client)) }
{
    match a.cmp(b) {
        Ordering::Equal => a_client.0 < b_client.0,
        unequal => unequal.is_lt(),
    }
}
