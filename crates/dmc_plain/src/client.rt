//! A client of the reference queue.
ghost use Rattle.std.specs.Prelude.{◌≡◌, ◌<◌, ◌||◌, [], length, remove, OnOk, OnErr, IsOkUnless};
ghost use Rattle.dmc_types.specs.declared.refusal.QueueFault.{QueueFault};
ghost use Rattle.dmc_tag.specs.State as state;
ghost use Rattle.dmc_tag.specs.Rules as rules_of;
ghost use Rattle.dmc_tag.specs.Cancel.{last_has_token, without_token, charged_to};
ghost use Rattle.dmc_plain.specs.internal.Arrivals as arrivals;

use crate::changes::{RequestReduction, RequestShift, change_all};
use crate::{cancelling, requests};
use dmc_tag::assignment::{no_previous, previous_after};
use dmc_tag::plain::{Previous, QueuedRequest, Slack};
use dmc_tag::reply::Tags;
use dmc_tag::shifting::{has_less, less};
use dmc_tag::spacing::spacings_for;
use dmc_tag::tag::Tag;
use dmc_types::config::Counting;
use dmc_types::ids::{ClientId, Token};
use dmc_types::info::ClientInfo;
use dmc_types::moment::Moment;
use dmc_types::refusal::QueueFault;
use std::alloc::Global;
use std::marker::Model;

/// A registered client with its queued requests. Contracts see it as a plain client.
#[derive(Drop)]
pub struct Client<T> {
    id: ClientId,
    info: ClientInfo,
    previous: Previous<T>,
    idle: bool,
    last_arrival: Moment,
    requests: Vec<QueuedRequest<T>>,
}

impl<T> Model for Client<T> {
    ghost use Rattle.dmc_tag.specs.State.{PlainClient};

    ghost Value = { PlainClient T };

    ghost view = { λ c. record { id = c.id; info = c.info; previous = c.previous; idle = c.idle; last_arrival = c.last_arrival; requests = c.requests.items } };
}

impl<T> Client<T> {
    /// The client's id.
    pub fn id(&self) -> ClientId
        ensures { result ≡ self.now.id }
    {
        self.id
    }

    /// The client's rates.
    pub fn info(&self) -> ClientInfo
        ensures { result ≡ self.now.info }
    {
        self.info
    }

    /// The tags of the client's last request.
    pub fn previous(&self) -> &Previous<T>
        ensures { result.now ≡ self.now.previous }
    {
        &self.previous
    }

    /// Whether the client is idle.
    pub fn is_idle(&self) -> bool
        ensures { result ≡ self.now.idle }
    {
        self.idle
    }

    /// The client's queued requests.
    pub fn requests(&self) -> &[QueuedRequest<T>]
        ensures { result.now ≡ self.now.requests }
    {
        &self.requests
    }

    /// Whether a request of the client is queued.
    pub fn is_busy(&self) -> bool
        ensures { result ≡ state.is_busy self.now }
    {
        !self.requests.is_empty()
    }

    /// Whether the client has nothing queued and its last arrival is at least this old.
    pub fn is_stale(&self, at: Moment, age: u64) -> bool
        ensures { result ≡ rules_of.is_stale at age self.now }
    {
        !self.is_busy() && at.ticks().saturating_sub(self.last_arrival.ticks()) >= age
    }

    /// Replaces the client's rates.
    pub fn update(&mut self, info: ClientInfo)
        ensures { self.new ≡ rules_of.with_info info self.old }
    {
        self.info = info;
    }

    /// Marks the client if it is this old.
    pub fn mark(&mut self, at: Moment, idle_age: u64)
        ensures { self.new ≡ record self.old { idle = self.old.idle || rules_of.is_stale at idle_age self.old } }
    {
        self.idle = self.idle || self.is_stale(at, idle_age);
    }
}

impl<T: Tag> Client<T> {
    /// The record of a client that is registered at a moment. It does not allocate.
    pub fn newcomer(alloc: Global, id: ClientId, info: ClientInfo, at: Moment) -> Client<T>
        ensures { result ≡ rules_of.newcomer T.ops id info at }
    {
        Client {
            id,
            info,
            previous: no_previous(),
            idle: true,
            last_arrival: at,
            requests: Vec::new(alloc),
        }
    }

    /// Queues a request, and records nothing else.
    pub fn append(&mut self, request: QueuedRequest<T>) -> Result<(), QueueFault>
        ensures ok { OnOk result (self.new ≡ arrivals.appended request self.old) }
        ensures err { OnErr result (self.new ≡ self.old) }
        ensures memory { IsOkUnless result QueueFault.Memory }
    {
        if self.requests.push(request).is_err() {
            return Err(QueueFault::Memory);
        }
        Ok(())
    }

    /// Records the arrival of a request with these tags and this slack.
    pub fn arrive(&mut self, tags: Tags<T>, slack: Slack<T>, at: Moment)
        ensures { self.new ≡ arrivals.arrived tags slack at self.old }
    {
        self.previous = previous_after(tags, slack, self.previous);
        self.idle = false;
        self.last_arrival = at;
    }

    /// Whether each tag that a shift changes stays a value.
    pub fn can_shift(&self, amount: T) -> bool
        ensures { result ≡ rules_of.client_can_shift T.ops amount self.now }
    {
        self.idle
            || (requests::can_shift(&self.requests, amount) && has_less(self.previous.p, amount))
    }

    /// Shifts the client if it is not idle.
    pub fn shift(&mut self, amount: T)
        ensures { self.new ≡ rules_of.shifted_client T.ops amount self.old }
    {
        if !self.idle {
            self.previous.p = less(self.previous.p, amount);
            change_all(&mut self.requests, &RequestShift { amount });
        }
    }

    /// Whether each tag that a reduction changes stays a value. The request at the index is left out.
    pub fn can_reduce_without(&self, index: usize, amount: Option<T>) -> bool
        requires { index < length self.now.requests }
        ensures { result ≡ rules_of.can_reduce_by T.ops amount (rules_of.with_requests (remove self.now.requests index) self.now) }
    {
        match amount {
            None => true,
            Some(amount) => {
                requests::can_reduce_others(&self.requests, index, amount)
                    && has_less(self.previous.r, amount)
            }
        }
    }

    /// Takes an amount off the client's R tags.
    pub fn reduce(&mut self, amount: Option<T>)
        ensures { self.new ≡ rules_of.reduced_by T.ops amount self.old }
    {
        if let Some(amount) = amount {
            self.previous.r = less(self.previous.r, amount);
            change_all(&mut self.requests, &RequestReduction { amount });
        }
    }

    /// Removes the request at an index.
    pub fn take_out(&mut self, index: usize)
        requires { index < length self.old.requests }
        ensures { self.new ≡ rules_of.with_requests (remove self.old.requests index) self.old }
    {
        let _taken = self.requests.remove(index);
    }

    /// Removes the client's requests.
    pub fn clear(&mut self)
        ensures { self.new ≡ rules_of.with_requests [] self.old }
    {
        self.requests.clear();
    }

    /// Whether the client's last request is cancelled when its requests with a token are.
    fn is_last_cancelled(&self, token: Token) -> bool
        ensures { result ≡ (self.now.previous.cancelled || last_has_token token self.now.requests) }
    {
        self.previous.cancelled || cancelling::is_last(&self.requests, token)
    }

    /// Takes back the client's requests with a token. Under `Counting::Others` those behind them fall by what they were charged.
    pub fn cancel(&mut self, token: Token, counting: Counting, hz: u32)
        ensures { self.new ≡ without_token T.ops token (charged_to T.ops hz counting self.old) self.old }
    {
        let cancelled = self.is_last_cancelled(token);
        let spacings = spacings_for(hz, self.info).ok();
        let befores = cancelling::take_back(&mut self.requests, token, counting, spacings);
        self.previous = befores.last(cancelled, self.previous);
    }
}
