//! The least P of all heads, as far as it is known.
ghost use Rattle.std.specs.Prelude.{◌≡◌, Some};
ghost use Rattle.std.specs.Option.{option_map};
ghost use Rattle.dmc_index.specs.Index.{slot_of_key};
ghost use Rattle.dmc_head_index.specs.internal.Heads as heads_of;
ghost use Rattle.dmc_head_index.specs.Least as least_share;
ghost use Rattle.dmc_head_index.specs.internal.Least as least_among;
ghost use Rattle.dmc_head_index.specs.internal.Least.{FindsLeast};

use dmc_index::index::OrderIndex;
use dmc_tag::rank::ReadyRank;
use dmc_tag::shifting::less;
use dmc_tag::tag::Tag;

/// The lesser of two tags.
pub fn lesser<T: Tag>(a: T, b: T) -> T
    ensures { result ≡ least_share.lesser T.ops a b }
{
    if a.cmp(&b).is_gt() { b } else { a }
}

/// The lesser of two tags, of which each may be absent.
fn least_of_two<T: Tag>(a: Option<T>, b: Option<T>) -> Option<T>
    ensures { result ≡ least_among.least_of_two T.ops a b }
{
    match (a, b) {
        (None, b) => b,
        (Some(a), None) => Some(a),
        (Some(a), Some(b)) => Some(lesser(a, b)),
    }
}

/// The least when a head is added: known if it is the first, or if it was known.
pub fn least_with<T: Tag>(is_first: bool, least: Option<T>, share: T) -> Option<T>
    ensures { result ≡ least_among.least_with T.ops is_first least share }
{
    if is_first {
        return Some(share);
    }
    match least {
        None => None,
        Some(known) => Some(lesser(share, known)),
    }
}

/// The least when a head is removed: no longer known if the head had it.
pub fn least_without<T: Tag>(least: Option<T>, share: T) -> Option<T>
    ensures { result ≡ least_among.least_without T.ops least share }
{
    let known = least?;
    if share.cmp(&known).is_eq() {
        return None;
    }
    Some(known)
}

/// The least when the P of a head changes: the new one if that is at most the old least, and no longer known if the head had
/// the least.
pub fn least_after<T: Tag>(least: Option<T>, old: T, new: T) -> Option<T>
    ensures { result ≡ least_among.least_after T.ops least old new }
{
    let known = least?;
    if new.cmp(&known).is_gt() {
        return least_without(least, old);
    }
    Some(new)
}

/// A rank with an amount off its tag.
pub fn less_rank<T: Tag>(rank: ReadyRank<T>, amount: T) -> ReadyRank<T>
    ensures { result ≡ heads_of.less_rank T.ops amount rank }
{
    let tag = less(rank.tag, amount);
    ReadyRank { tag, ..rank }
}

/// The least tag of the keys below the capacity, by a pass over them.
pub fn find_least<T: Tag, X: OrderIndex<ReadyRank<T>>>(ready: &X, room: usize) -> Option<T>
    ensures { FindsLeast T.ops (X.slots ready.now) room result }
{
    let mut least = None;
    for key in 0..room {
        least = least_of_two(least, tag_of(ready, key));
    }
    least
}

/// The tag of a key.
fn tag_of<T: Tag, X: OrderIndex<ReadyRank<T>>>(ready: &X, key: usize) -> Option<T>
    ensures { result ≡ option_map (λ rank. rank.tag) (slot_of_key (X.slots ready.now) key) }
{
    match ready.get(key) {
        None => None,
        Some(rank) => Some(rank.tag),
    }
}
