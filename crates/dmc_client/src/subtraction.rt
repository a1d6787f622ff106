//! An amount taken off each tag of one kind, in place, and whether the results are values.
ghost use Rattle.std.specs.Prelude.{◌≡◌, map, is_some, IfSome};
ghost use Rattle.dmc_client.specs.internal.Deferred as deferred_of;
ghost use Rattle.dmc_tag.specs.Rules as rules_of;
ghost use Rattle.std.specs.List.{list_all};

use dmc_tag::plain::QueuedRequest;
use dmc_tag::reply::Tags;
use dmc_tag::shifting::{has_less, less};
use dmc_tag::tag::Tag;
use std::collections::VecDeque;

/// A request with the amount off its P.
pub fn less_share<T: Tag>(request: QueuedRequest<T>, amount: T) -> QueuedRequest<T>
    ensures { result ≡ rules_of.less_share T.ops amount request }
{
    let p = less(request.tags.p, amount);
    let tags = Tags { p, ..request.tags };
    QueuedRequest { tags, ..request }
}

/// A request with the amount off its P, and `None` if that is no value.
pub fn checked_less_share<T: Tag>(request: QueuedRequest<T>, amount: T) -> Option<QueuedRequest<T>>
    ensures test { is_some result ≡ rules_of.has_less T.ops amount request.tags.p }
    ensures value { IfSome result (λ changed. changed ≡ rules_of.less_share T.ops amount request) }
{
    let tags = request.tags;
    let p = tags.p.minus(amount)?;
    let tags = Tags { p, ..tags };
    Some(QueuedRequest { tags, ..request })
}

/// A request with the amount off its R, if it has one.
pub fn less_reservation<T: Tag>(request: QueuedRequest<T>, amount: T) -> QueuedRequest<T>
    ensures { result ≡ rules_of.less_reservation T.ops amount request }
{
    let r = match request.tags.r {
        None => None,
        Some(r) => Some(less(r, amount)),
    };
    let tags = Tags { r, ..request.tags };
    QueuedRequest { tags, ..request }
}

/// Whether the R less the amount is a value, or there is no R.
pub fn reservation_has_less<T: Tag>(request: QueuedRequest<T>, amount: T) -> bool
    ensures { result ≡ deferred_of.reservation_has_less T.ops amount request }
{
    match request.tags.r {
        None => true,
        Some(r) => has_less(r, amount),
    }
}

/// Whether each P less the amount is a value.
pub fn shares_have_less<T: Tag>(queue: &VecDeque<QueuedRequest<T>>, amount: T) -> bool
    ensures { result ≡ list_all (λ r. rules_of.has_less T.ops amount r.tags.p) queue.now.items }
{
    for i in 0..queue.len() {
        if !has_less(queue[i].tags.p, amount) {
            return false;
        }
    }
    true
}

/// Takes the amount off each P.
pub fn subtract_shares<T: Tag>(queue: &mut VecDeque<QueuedRequest<T>>, amount: T)
    ensures { queue.new.items ≡ map (rules_of.less_share T.ops amount) queue.old.items }
{
    for i in 0..queue.len() {
        queue[i] = less_share(queue[i], amount);
    }
}

/// Takes the amount off each R.
#[inline(never)]
pub fn subtract_reservations<T: Tag>(queue: &mut VecDeque<QueuedRequest<T>>, amount: T)
    ensures { queue.new.items ≡ map (rules_of.less_reservation T.ops amount) queue.old.items }
{
    for i in 0..queue.len() {
        queue[i] = less_reservation(queue[i], amount);
    }
}
