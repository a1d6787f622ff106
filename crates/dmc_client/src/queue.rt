//! The queued requests of a client, whose R tags are all reduced at once.
ghost use Rattle.std.specs.Prelude.{◌≡◌, ◌==◌, ◌++◌, ◌∷◌, [], true, drop, is_some, length, map, slice_get, if◌then◌else◌, OnOk, OnErr, IfSome, Some};
ghost use Rattle.std.specs.List.{list_all, AllByRecursion};
ghost use Rattle.std.specs.Option.{option_map_or};
ghost use Rattle.dmc_client.specs.internal.Deferred as deferred_of;
ghost use Rattle.dmc_client.specs.internal.Passed.{IsOfRecord};
ghost use Rattle.dmc_tag.specs.Cancel.{staying, befores_after, no_befores, charges_of};
ghost use Rattle.dmc_tag.specs.Rules as rules_of;

use crate::stored::StoredRequests;
use crate::subtraction::reservation_has_less;
use dmc_tag::cancel::Befores;
use dmc_tag::plain::QueuedRequest;
use dmc_tag::reply::Tags;
use dmc_tag::shifting::less;
use dmc_tag::spacing::Spacings;
use dmc_tag::tag::Tag;
use dmc_types::config::Counting;
use dmc_types::ids::Token;
use std::alloc::{AllocError, Global};
use std::collections::VecDeque;
use std::marker::Model;

/// The queued requests of a client in order of arrival. If tags are whole numbers a reduction adds to one deferred amount, and
/// walks over no request: the amount is taken off an R as its request is read.
#[derive(Drop)]
pub struct RequestQueue<T: Tag> {
    stored: StoredRequests<T>,
    deferred: Option<T>,
}

impl<T: Tag> Model for RequestQueue<T> {
    ghost use Rattle.std.specs.Prelude.{List};
    ghost use Rattle.dmc_tag.specs.declared.plain.QueuedRequest.{QueuedRequest};
    ghost use Rattle.dmc_client.specs.internal.Deferred.{all_less_deferred, IsDeferred};

    ghost Value = { List (QueuedRequest T) };

    ghost view = { λ q. all_less_deferred T.ops q.deferred q.stored };

    ghost invariant = { λ q. IsDeferred T.ops q.deferred q.stored };
}

impl<T: Tag> RequestQueue<T> {
    /// An empty queue. It does not allocate.
    pub fn new(alloc: Global) -> RequestQueue<T>
        ensures { result ≡ [] }
    {
        RequestQueue {
            stored: StoredRequests::new(alloc),
            deferred: None,
        }
    }

    /// Queues a request behind the others. An allocation failure changes nothing.
    pub fn push(&mut self, request: QueuedRequest<T>) -> Result<(), AllocError>
        ensures ok { OnOk result (self.new ≡ self.old ++ request ∷ []) }
        ensures err { OnErr result (self.new ≡ self.old) }
    {
        if let Some(stored) = with_deferred(request, self.deferred) {
            return self.stored.push(stored);
        }
        settle(&mut self.stored, self.deferred);
        self.deferred = None;
        self.stored.push(request)
    }

    /// The request that arrived first.
    // Inlined: callers read a part of the request, and need no copy of it.
    #[inline(always)]
    pub fn front(&self) -> Option<QueuedRequest<T>>
        ensures { result ≡ slice_get self.now 0 }
    {
        match self.stored.get(0) {
            None => None,
            Some(first) => Some(less_deferred(first, self.deferred)),
        }
    }

    /// Removes the request that arrived first.
    // Inlined: callers read a part of the request, and need no copy of it.
    #[inline(always)]
    pub fn pop_front(&mut self) -> Option<QueuedRequest<T>>
        ensures value { result ≡ slice_get self.old 0 }
        ensures rest { self.new ≡ drop 1 self.old }
    {
        let deferred = self.deferred;
        let first = self.stored.pop()?;
        if self.stored.is_empty() {
            self.deferred = None;
        }
        Some(less_deferred(first, deferred))
    }

    /// Removes all requests.
    pub fn clear(&mut self)
        ensures { self.new ≡ [] }
    {
        self.stored.clear();
        self.deferred = None;
    }

    /// Takes back the requests with a token. Returns what became of the tags of the last request.
    #[inline(never)]
    pub fn cancel(&mut self, token: Token, counting: Counting, spacings: &Spacings<T>) -> Befores<T>
        requires { AllByRecursion (IsOfRecord T.ops (is_some spacings.now.r)) self.old }
        ensures rest { self.new ≡ staying T.ops token (charges_of T.ops counting (Some spacings.now)) no_befores self.old }
        ensures last { result ≡ befores_after T.ops token (charges_of T.ops counting (Some spacings.now)) no_befores self.old }
    {
        settle(&mut self.stored, self.deferred);
        self.deferred = None;
        self.stored.cancel(token, counting, spacings)
    }

    /// The number of queued requests.
    pub fn len(&self) -> usize
        ensures { result ≡ length self.now }
    {
        self.stored.len()
    }

    /// Whether nothing is queued.
    pub fn is_empty(&self) -> bool
        ensures { result ≡ (length self.now == 0) }
    {
        self.stored.is_empty()
    }

    /// Whether each P less the amount is a value.
    pub fn has_less_shares(&self, amount: T) -> bool
        ensures { result ≡ list_all (λ r. rules_of.has_less T.ops amount r.tags.p) self.now }
    {
        self.stored.shares_have_less(amount)
    }

    /// Whether the second request's R less the amount is a value.
    pub fn second_has_less(&self, amount: T) -> bool
        ensures { result ≡ option_map_or (deferred_of.reservation_has_less T.ops amount) (slice_get self.now 1) true }
    {
        match self.stored.get(1) {
            None => true,
            Some(request) => reservation_has_less(less_deferred(request, self.deferred), amount),
        }
    }

    /// Whether each R but the first request's, less the amount, is a value.
    pub fn others_have_less(&self, amount: T) -> bool
        ensures { result ≡ list_all (deferred_of.reservation_has_less T.ops amount) (drop 1 self.now) }
    {
        others_have_less(self.stored.later(), self.deferred, amount)
    }

    /// Takes the amount off each P if each stays a value, and otherwise changes nothing. Returns whether each does.
    pub fn subtract_shares(&mut self, amount: T) -> bool
        ensures value { result ≡ list_all (λ r. rules_of.has_less T.ops amount r.tags.p) self.old }
        ensures new { self.new ≡ (if result then map (rules_of.less_share T.ops amount) self.old else self.old) }
    {
        self.stored.subtract_shares(amount)
    }

    /// Takes the amount off each R. If tags are whole numbers it is deferred, and taken off the stored tags only if the
    /// deferred sum is no value. Otherwise it is taken off at once.
    pub fn subtract_reservations(&mut self, amount: T)
        requires { list_all (deferred_of.reservation_has_less T.ops amount) self.old ≡ true }
        ensures { self.new ≡ map (rules_of.less_reservation T.ops amount) self.old }
    {
        if self.is_empty() {
            return;
        }
        if T::is_whole() {
            if let Some(deferred) = deferred_with(self.deferred, amount) {
                self.deferred = Some(deferred);
                return;
            }
        }
        settle(&mut self.stored, self.deferred);
        self.deferred = None;
        self.stored.subtract_reservations(amount);
    }
}

/// A stored request, less the deferred amount.
fn less_deferred<T: Tag>(request: QueuedRequest<T>, deferred: Option<T>) -> QueuedRequest<T>
    ensures { result ≡ deferred_of.less_deferred T.ops deferred request }
{
    let r = tag_less_deferred(request.tags.r, deferred);
    let tags = Tags { r, ..request.tags };
    QueuedRequest { tags, ..request }
}

/// A stored R, less the deferred amount.
fn tag_less_deferred<T: Tag>(r: Option<T>, deferred: Option<T>) -> Option<T>
    ensures { result ≡ deferred_of.tag_less_deferred T.ops deferred r }
{
    match (r, deferred) {
        (Some(r), Some(amount)) => Some(less(r, amount)),
        (r, _) => r,
    }
}

/// The request as it is stored: its R plus the deferred amount. `None` if that is no value.
fn with_deferred<T: Tag>(request: QueuedRequest<T>, deferred: Option<T>) -> Option<QueuedRequest<T>>
    ensures { IfSome result (λ stored. (deferred_of.less_deferred T.ops deferred stored ≡ request) × (deferred_of.has_deferred T.ops deferred stored ≡ true)) }
{
    let Some(r) = request.tags.r else {
        return Some(request);
    };
    let r = Some(tag_with_deferred(r, deferred)?);
    let tags = Tags { r, ..request.tags };
    Some(QueuedRequest { tags, ..request })
}

/// An R plus the deferred amount. `None` if that is no value.
fn tag_with_deferred<T: Tag>(r: T, deferred: Option<T>) -> Option<T>
    ensures { IfSome result (λ stored. (deferred_of.tag_less_deferred T.ops deferred (Some stored) ≡ Some r) × (deferred_of.tag_has_deferred T.ops deferred (Some stored) ≡ true)) }
{
    match deferred {
        None => Some(r),
        Some(amount) => Some(r.plus(amount)?),
    }
}

/// The deferred amount plus another. `None` if that is no value.
fn deferred_with<T: Tag>(deferred: Option<T>, amount: T) -> Option<T>
    ensures { result ≡ deferred_of.deferred_with T.ops deferred amount }
{
    match deferred {
        None => Some(amount),
        Some(deferred) => deferred.plus(amount),
    }
}

/// Whether each R, less the deferred amount and this amount, is a value.
fn others_have_less<T: Tag>(
    others: &VecDeque<QueuedRequest<T>>,
    deferred: Option<T>,
    amount: T,
) -> bool
    ensures { result ≡ list_all (λ r. deferred_of.reservation_has_less T.ops amount (deferred_of.less_deferred T.ops deferred r)) others.now.items }
{
    for i in 0..others.len() {
        if !reservation_has_less(less_deferred(others[i], deferred), amount) {
            return false;
        }
    }
    true
}

/// Takes the deferred amount off each stored R.
#[cold]
#[inline(never)]
fn settle<T: Tag>(stored: &mut StoredRequests<T>, deferred: Option<T>)
    ensures { stored.new ≡ deferred_of.all_less_deferred T.ops deferred stored.old }
{
    if let Some(amount) = deferred {
        stored.subtract_reservations(amount);
    }
}
