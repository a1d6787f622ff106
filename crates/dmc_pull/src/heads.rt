//! The heads of a queue's clients.
ghost use Rattle.std.specs.Prelude.{◌≡◌, ◌==◌, true, not, if◌then◌else◌, None, Some, slice_set, is_some};
ghost use Rattle.std.specs.Option.{option_map};
ghost use Rattle.dmc_index.specs.Index.{slot_of_key};
ghost use Rattle.dmc_pull.specs.internal.Queue as queue_of;
ghost use Rattle.dmc_tag.specs.Rules as rules_of;

use dmc_head_index::head::Head;
use dmc_head_index::heads::Heads;
use dmc_index::index::Indexes;
use dmc_tag::due::is_due;
use dmc_tag::reply::Tags;
use dmc_tag::tag::Tag;
use dmc_types::ids::ClientId;
use dmc_types::moment::Moment;

/// A client's head at a moment. It is marked ready if its L is at most that moment, so that no later pull has to mark it.
pub fn head_at<T: Tag>(client: ClientId, tags: Tags<T>, at: Moment) -> Head<T>
    ensures { result ≡ queue_of.head_at T.ops at client tags }
{
    Head {
        client,
        tags,
        ready: is_due(Some(tags.l), at),
    }
}

/// Changes the head of a client whose first request was removed, to that of the next request or to none.
// Inlined: the tags are not copied.
#[inline(always)]
pub fn renew<T: Tag, I: Indexes<T>>(
    heads: &mut Heads<T, I>,
    key: usize,
    client: ClientId,
    tags: Option<Tags<T>>,
    at: Moment,
)
    requires { option_map (λ h. h.client) (slot_of_key heads.old key) ≡ Some client }
    ensures { heads.new ≡ slice_set heads.old key (option_map (queue_of.head_at T.ops at client) tags) }
{
    match tags {
        None => heads.remove(key),
        Some(tags) => heads.change(key, head_at(client, tags, at)),
    }
}

/// Changes the head of a client that had this many requests queued, to that of its first request or to none. A client without any
/// has no head.
pub fn renew_queued<T: Tag, I: Indexes<T>>(
    heads: &mut Heads<T, I>,
    queued: usize,
    key: usize,
    client: ClientId,
    tags: Option<Tags<T>>,
    at: Moment,
)
    requires head { option_map (λ h. h.client) (slot_of_key heads.old key) ≡ (if queued == 0 then None else Some client) }
    requires none { (queued == 0) ≡ true → tags ≡ None }
    ensures { heads.new ≡ slice_set heads.old key (option_map (queue_of.head_at T.ops at client) tags) }
{
    if queued > 0 {
        renew(heads, key, client, tags, at);
    }
}

/// Removes the head of a client that had this many requests queued. A client without any has no head.
pub fn clear<T: Tag, I: Indexes<T>>(heads: &mut Heads<T, I>, key: usize, queued: usize)
    requires { is_some (slot_of_key heads.old key) ≡ not (queued == 0) }
    ensures { heads.new ≡ slice_set heads.old key None }
{
    if queued > 0 {
        heads.remove(key);
    }
}

/// The least whole number that is not below the tag, as a moment: 0 if it is below 0.
pub fn due_moment<T: Tag>(tag: T) -> u128
    ensures { result ≡ rules_of.moment_of (T.ops.ceil tag) }
{
    let ticks = tag.ceil();
    if ticks < 0 { 0 } else { ticks as u128 }
}
