//! Changes of each element of a list.
ghost use Rattle.std.specs.Prelude.{◌≡◌, ◌||◌, map, vec_len};
ghost use Rattle.dmc_tag.specs.Rules as rules_of;

use crate::client::Client;
use dmc_tag::plain::QueuedRequest;
use dmc_tag::shifting::less;
use dmc_tag::tag::Tag;
use dmc_types::moment::Moment;

/// What an element becomes by a rule.
pub trait Change<X> {
    ghost changed: { Self → X → X };

    /// Changes an element in place.
    fn apply(&self, item: &mut X)
        ensures { item.new ≡ changed self.now item.old };
}

/// Changes each element.
pub fn change_each<X, C: Change<X>>(items: &mut [X], change: &C)
    ensures { items.new ≡ map (C.changed change.now) items.old }
{
    for item in items.iter_mut() {
        change.apply(item);
    }
}

/// Changes each element of a vector.
pub fn change_all<X, C: Change<X>>(items: &mut Vec<X>, change: &C)
    ensures items { items.new.items ≡ map (C.changed change.now) items.old.items }
    ensures len { vec_len items.new ≡ vec_len items.old }
{
    change_each(items, change)
}

/// A shift of a request, whose client is not idle.
#[derive(Drop)]
pub struct RequestShift<T> {
    pub amount: T,
}

impl<T: Tag> Change<QueuedRequest<T>> for RequestShift<T> {
    ghost changed = { λ s r. rules_of.less_share T.ops s.amount r };

    fn apply(&self, request: &mut QueuedRequest<T>) {
        request.tags.p = less(request.tags.p, self.amount);
    }
}

/// A reduction of a request.
#[derive(Drop)]
pub struct RequestReduction<T> {
    pub amount: T,
}

impl<T: Tag> Change<QueuedRequest<T>> for RequestReduction<T> {
    ghost changed = { λ s r. rules_of.less_reservation T.ops s.amount r };

    fn apply(&self, request: &mut QueuedRequest<T>) {
        if let Some(r) = request.tags.r {
            request.tags.r = Some(less(r, self.amount));
        }
    }
}

/// A shift of a client that is not idle.
#[derive(Drop)]
pub struct ClientShift<T> {
    pub amount: T,
}

impl<T: Tag> Change<Client<T>> for ClientShift<T> {
    ghost changed = { λ s c. rules_of.shifted_client T.ops s.amount c };

    fn apply(&self, client: &mut Client<T>) {
        client.shift(self.amount);
    }
}

/// A clean of a client that is not erased.
#[derive(Drop)]
pub struct Mark {
    pub at: Moment,
    pub idle_age: u64,
}

impl<T> Change<Client<T>> for Mark {
    ghost changed = { λ s c. record c { idle = c.idle || rules_of.is_stale s.at s.idle_age c } };

    fn apply(&self, client: &mut Client<T>) {
        client.mark(self.at, self.idle_age);
    }
}
