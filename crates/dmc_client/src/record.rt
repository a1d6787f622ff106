//! The record of a client.
ghost use Rattle.std.specs.Prelude.{◌≡◌, ◌==◌, ◌||◌, true, false, Some, length, [], drop, filter, slice_get, if◌then◌else◌, OnOk, OnErr};
ghost use Rattle.dmc_tag.specs.Cancel.{has_token, charges_of, fallen_previous};
ghost use Rattle.std.specs.Option.{option_map_or};
ghost use Rattle.dmc_tag.specs.Order.{AreSpacings, AreNext, NotBelow};
ghost use Rattle.dmc_tag.specs.Rules.{changes_reservation};
ghost use Rattle.dmc_client.specs.Record as record_of;
ghost use Rattle.dmc_client.specs.Record.{IsRecord};

use crate::queue::RequestQueue;
use dmc_tag::assignment::{no_previous, previous_after};
use dmc_tag::cancel::Befores;
use dmc_tag::plain::{Previous, QueuedRequest};
use dmc_tag::shifting::{has_less, less};
use dmc_tag::spacing::Spacings;
use dmc_tag::tag::Tag;
use dmc_types::config::Counting;
use dmc_types::ids::Token;
use dmc_types::info::ClientInfo;
use dmc_types::moment::Moment;
use std::alloc::{AllocError, Global};
use std::marker::Model;

/// What a queue stores of a client: its rates and their spacings, its previous tags, the idle mark, its last arrival, and its
/// queued requests in order of arrival. No tag decreases from front to back, and the previous tags are not below the last queued
/// ones.
#[derive(Drop)]
pub struct ClientRec<T: Tag> {
    // What a shift of all records reads and writes is first, side by side: fields are laid out in this order.
    idle: bool,
    previous: Previous<T>,
    queue: RequestQueue<T>,
    spacings: Spacings<T>,
    info: ClientInfo,
    last_arrival: Moment,
}

impl<T: Tag> Model for ClientRec<T> {
    ghost use Rattle.dmc_client.specs.Record.{Rec, IsRecord};

    ghost Value = { Rec T };

    ghost view = { λ c. record { info = c.info; spacings = c.spacings; previous = c.previous; idle = c.idle; last_arrival = c.last_arrival; requests = c.queue } };

    ghost invariant = { λ c. IsRecord T.ops (record { info = c.info; spacings = c.spacings; previous = c.previous; idle = c.idle; last_arrival = c.last_arrival; requests = c.queue }) };
}

impl<T: Tag> ClientRec<T> {
    /// The record of a client that registers at a moment: previous tags 0, idle, nothing queued. It does not allocate.
    pub fn new(alloc: Global, info: ClientInfo, spacings: Spacings<T>, at: Moment) -> ClientRec<T>
        requires { AreSpacings T.ops info spacings }
        ensures value { result ≡ record_of.registered_at T.ops info spacings at }
        ensures kept { IsRecord T.ops result }
    {
        ClientRec {
            info,
            spacings,
            previous: no_previous(),
            idle: true,
            last_arrival: at,
            queue: RequestQueue::new(alloc),
        }
    }

    /// Queues a request that arrives at a moment. Its tags become the previous ones, and the client is not idle. An allocation
    /// failure changes nothing.
    pub fn push(&mut self, request: QueuedRequest<T>, at: Moment) -> Result<(), AllocError>
        requires next { AreNext T.ops self.old.info self.old.previous request.tags }
        requires slack { NotBelow T.ops request.slack }
        ensures ok { OnOk result (self.new ≡ record_of.pushed request at self.old) }
        ensures err { OnErr result (self.new ≡ self.old) }
        ensures kept { IsRecord T.ops self.new }
    {
        if self.queue.push(request).is_err() {
            return Err(AllocError);
        }
        self.previous = previous_after(request.tags, request.slack, self.previous);
        self.idle = false;
        self.last_arrival = at;
        Ok(())
    }

    /// The queued request that arrived first.
    // Inlined: callers read a part of the request, and need no copy of it.
    #[inline(always)]
    pub fn head(&self) -> Option<QueuedRequest<T>>
        ensures value { result ≡ slice_get self.now.requests 0 }
        ensures kept { IsRecord T.ops self.now }
    {
        self.queue.front()
    }

    /// Removes the queued request that arrived first.
    // Inlined: callers read a part of the request, and need no copy of it.
    #[inline(always)]
    pub fn pop(&mut self) -> Option<QueuedRequest<T>>
        ensures value { result ≡ slice_get self.old.requests 0 }
        ensures rest { self.new ≡ record self.old { requests = drop 1 self.old.requests } }
        ensures kept { IsRecord T.ops self.new }
    {
        self.queue.pop_front()
    }

    /// Removes all queued requests, and returns how many.
    pub fn drain(&mut self) -> usize
        ensures count { result ≡ length self.old.requests }
        ensures rest { self.new ≡ record self.old { requests = [] } }
        ensures kept { IsRecord T.ops self.new }
    {
        let count = self.queue.len();
        self.queue.clear();
        count
    }

    /// Takes back the queued requests with a token, and returns how many. What each was charged by its own share is given back
    /// to those behind it, if its stamp counted that.
    pub fn cancel(&mut self, token: Token, counting: Counting) -> usize
        ensures count { result ≡ length (filter (has_token token) self.old.requests) }
        ensures rest { self.new ≡ record_of.without_token T.ops token (charges_of T.ops counting (Some self.old.spacings)) self.old }
        ensures kept { IsRecord T.ops self.new }
    {
        let count = self.queue.len();
        let befores = self.queue.cancel(token, counting, &self.spacings);
        self.previous = behind(&befores, self.previous);
        count - self.queue.len()
    }

    /// The number of queued requests.
    pub fn len(&self) -> usize
        ensures { result ≡ length self.now.requests }
    {
        self.queue.len()
    }

    /// Whether nothing is queued.
    pub fn is_empty(&self) -> bool
        ensures { result ≡ (length self.now.requests == 0) }
    {
        self.queue.is_empty()
    }

    /// The rates.
    pub fn info(&self) -> ClientInfo
        ensures { result ≡ self.now.info }
    {
        self.info
    }

    /// The spacings of the rates.
    pub fn spacings(&self) -> &Spacings<T>
        ensures value { result.now ≡ self.now.spacings }
        ensures kept { IsRecord T.ops self.now }
    {
        &self.spacings
    }

    /// The tags of the last request, less what has been subtracted since.
    pub fn previous(&self) -> &Previous<T>
        ensures value { result.now ≡ self.now.previous }
        ensures kept { IsRecord T.ops self.now }
    {
        &self.previous
    }

    /// Whether no request has arrived since registration, or since a clean marked the client idle.
    pub fn is_idle(&self) -> bool
        ensures value { result ≡ self.now.idle }
        ensures kept { IsRecord T.ops self.now }
    {
        self.idle
    }

    /// The effective moment of the last request, or of registration if there is none.
    pub fn last_arrival(&self) -> Moment
        ensures { result ≡ self.now.last_arrival }
    {
        self.last_arrival
    }

    /// Replaces the rates and their spacings. A reservation is given or taken only with nothing queued.
    pub fn set_info(&mut self, info: ClientInfo, spacings: Spacings<T>)
        requires spacings { AreSpacings T.ops info spacings }
        requires not_busy { changes_reservation self.old.info info ≡ true → self.old.requests ≡ [] }
        ensures value { self.new ≡ record self.old { info = info; spacings = spacings } }
        ensures kept { IsRecord T.ops self.new }
    {
        self.info = info;
        self.spacings = spacings;
    }

    /// Marks a client idle that has nothing queued.
    pub fn mark_idle(&mut self)
        requires { self.old.requests ≡ [] }
        ensures value { self.new ≡ record self.old { idle = true } }
        ensures kept { IsRecord T.ops self.new }
    {
        self.idle = true;
    }

    /// Whether the P of each request and the previous P, less the amount, are values.
    pub fn has_less_shares(&self, amount: T) -> bool
        ensures { result ≡ record_of.has_less_shares T.ops amount self.now }
    {
        self.queue.has_less_shares(amount) && has_less(self.previous.p, amount)
    }

    /// Whether the R of each request but the first, and the previous R, less the amount, are values. The second R is the least of
    /// them and the previous one the greatest, so if tags are whole numbers these two are enough.
    pub fn others_have_less_reservations(&self, amount: T) -> bool
        ensures { result ≡ record_of.has_less_reservations T.ops amount (record self.now { requests = drop 1 self.now.requests }) }
    {
        if !has_less(self.previous.r, amount) {
            return false;
        }
        if T::is_whole() {
            return self.queue.second_has_less(amount);
        }
        self.queue.others_have_less(amount)
    }

    /// Takes the amount off the P of each request and off the previous P if each stays a value, and otherwise changes nothing.
    /// Returns whether each does.
    pub fn subtract_from_shares(&mut self, amount: T) -> bool
        ensures value { result ≡ record_of.has_less_shares T.ops amount self.old }
        ensures new { self.new ≡ (if result then record_of.less_shares T.ops amount self.old else self.old) }
        ensures kept { IsRecord T.ops self.new }
    {
        let Some(previous) = self.previous.p.minus(amount) else {
            return false;
        };
        if !self.queue.subtract_shares(amount) {
            return false;
        }
        self.previous.p = previous;
        true
    }

    /// Takes the amount off the R of each request and off the previous R.
    // Inlined: the amount is not copied.
    #[inline(always)]
    pub fn subtract_from_reservations(&mut self, amount: T)
        requires { record_of.has_less_reservations T.ops amount self.old ≡ true }
        ensures value { self.new ≡ record_of.less_reservations T.ops amount self.old }
        ensures kept { IsRecord T.ops self.new }
    {
        self.queue.subtract_reservations(amount);
        self.previous.r = less(self.previous.r, amount);
    }
}

/// What becomes of the previous tags behind all requests. They are of a cancelled request if they were before, or if the last
/// queued one is cancelled.
fn behind<T: Tag>(befores: &Befores<T>, previous: Previous<T>) -> Previous<T>
    ensures { result ≡ fallen_previous T.ops befores.now (previous.cancelled || option_map_or (λ before. before.cancelled) befores.now.l false) previous }
{
    let cancelled = previous.cancelled || befores.is_last_cancelled();
    befores.last(cancelled, previous)
}
