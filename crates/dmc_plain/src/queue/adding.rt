//! An add to the reference queue.
ghost use Rattle.std.specs.Prelude.{◌≡◌, ◌<◌, length, OnOk, OnErr, IfOk, IsOkUnless, vec_len};
ghost use Rattle.std.specs.Result.{result_map_both};
ghost use Rattle.dmc_types.specs.Limits.{max_requests};
ghost use Rattle.dmc_types.specs.declared.config.Shares.TheVariants.{Clock};
ghost use Rattle.dmc_tag.specs.Rules as rules_of;
ghost use Rattle.dmc_tag.specs.State.{queued_requests};
ghost use Rattle.dmc_plain.specs.internal.Arrivals.{IsArrival, addition_of};

use crate::best::{Set, best_place};
use crate::changes::{ClientShift, change_all};
use crate::client::Client;
use crate::clients::{self, count_requests, index_of};
use crate::queue::PlainQueue;
use dmc_tag::assignment::{next_tags, slack_of};
use dmc_tag::due::is_over_limit;
use dmc_tag::plain::{QueuedRequest, Slack};
use dmc_tag::progress::{count_arrival, share_floor};
use dmc_tag::reply::Tags;
use dmc_tag::spacing::spacings_for;
use dmc_tag::tag::Tag;
use dmc_types::config::Shares;
use dmc_types::cost::Cost;
use dmc_types::ids::{ClientId, Token};
use dmc_types::limits::MAX_REQUESTS;
use dmc_types::moment::Moment;
use dmc_types::params::ReqParams;
use dmc_types::refusal::{QueueFault, Refusal};

/// What an add does, once its tests have passed.
#[derive(Drop)]
pub(super) struct Arrival<T> {
    client: ClientId,
    /// The index of the client.
    index: usize,
    /// What is taken off the P tags of all others.
    shift: Option<T>,
    /// The tags of the new request.
    pub(super) tags: Tags<T>,
    /// Their slack.
    slack: Slack<T>,
}

impl<T: Tag> PlainQueue<T> {
    /// The tests of an add, and its effect: the shift of the others, and the new tags and their slack.
    pub(super) fn can_add(
        &self,
        client: ClientId,
        params: ReqParams,
        at: Moment,
    ) -> Result<Arrival<T>, Refusal>
        ensures outcome { result_map_both addition_of (λ e. e) result ≡ rules_of.can_add T.ops self.now client params at }
        ensures room { OnOk result (length (queued_requests self.now.clients) < max_requests) }
        ensures client { IfOk result (λ a. a.client ≡ client) }
        ensures arrival { IfOk result (IsArrival self.now.clients) }
    {
        let arrival = self.add_tags(client, params, T::of_moment(at))?;
        if self.rejects(&arrival, at) {
            return Err(Refusal::OverLimit);
        }
        Ok(arrival)
    }

    /// Whether the new request would wait for its limit too long.
    fn rejects(&self, arrival: &Arrival<T>, at: Moment) -> bool
        ensures { result ≡ rules_of.is_over_limit T.ops self.now.config.at_limit at arrival.now.tags.l }
    {
        is_over_limit(self.config.at_limit(), at, arrival.tags.l)
    }

    /// The shift of the others, the tags and the slack that an add brings, whatever the limit.
    fn add_tags(&self, client: ClientId, params: ReqParams, t: T) -> Result<Arrival<T>, Refusal>
        ensures outcome { result_map_both addition_of (λ e. e) result ≡ rules_of.add_tags T.ops self.now client params t }
        ensures room { OnOk result (length (queued_requests self.now.clients) < max_requests) }
        ensures client { IfOk result (λ a. a.client ≡ client) }
        ensures arrival { IfOk result (IsArrival self.now.clients) }
    {
        let Some(index) = index_of(&self.clients, client) else {
            return Err(Refusal::Unknown);
        };
        if count_requests(&self.clients) >= MAX_REQUESTS as usize {
            return Err(Refusal::QueueFull);
        }
        let arriving = &self.clients[index];
        let shift = shift_of(self.config.shares(), &self.clients, arriving, t)?;
        if !can_shift_by(&self.clients, shift) {
            return Err(Refusal::Range);
        }
        let floor = share_floor(self.config.shares(), &self.progress, self.empty(), t);
        let tags = assigned(self.config.hz(), arriving, params, t, floor)?;
        let slack = slack_of(arriving.previous(), tags, t, floor);
        Ok(Arrival {
            client,
            index,
            shift,
            tags,
            slack,
        })
    }

    /// Queues a request, shifts all others, and records the arrival. The request is queued first, since that may fail; its client
    /// is idle if others are shifted, and so is not shifted itself.
    pub(super) fn queue(
        &mut self,
        arrival: &Arrival<T>,
        token: Token,
        cost: Cost,
        at: Moment,
    ) -> Result<(), QueueFault>
        requires room { length (queued_requests self.old.clients) < max_requests }
        requires arrival { IsArrival self.old.clients arrival.now }
        ensures ok { OnOk result (self.new ≡ rules_of.queued T.ops self.old arrival.now.shift arrival.now.client (rules_of.request_of token cost (addition_of arrival.now)) at) }
        ensures err { OnErr result (self.new ≡ self.old) }
        ensures memory { IsOkUnless result QueueFault.Memory }
    {
        let tags = arrival.tags;
        let slack = arrival.slack;
        let nothing_queued = self.empty();
        self.clients[arrival.index].append(QueuedRequest {
            token,
            cost,
            tags,
            slack,
        })?;
        shift_clients(&mut self.clients, arrival.shift);
        self.clients[arrival.index].arrive(tags, slack, at);
        count_arrival(
            self.config.shares(),
            &mut self.progress,
            nothing_queued,
            tags.p,
        );
        self.last_moment = at;
        Ok(())
    }
}

/// Whether each tag that a shift changes stays a value.
fn can_shift_by<T: Tag>(clients: &[Client<T>], shift: Option<T>) -> bool
    ensures { result ≡ rules_of.can_shift_by T.ops shift clients.now }
{
    match shift {
        None => true,
        Some(amount) => clients::can_shift(clients, amount),
    }
}

/// The amount by which all others are shifted for a client that arrives at t. In virtual time there is none.
fn shift_of<T: Tag>(
    shares: Shares,
    clients: &[Client<T>],
    arriving: &Client<T>,
    t: T,
) -> Result<Option<T>, Refusal>
    ensures { result ≡ rules_of.shift_of T.ops shares clients.now arriving.now t }
{
    match shares {
        Shares::Clock => shift_by_clock(clients, arriving, t),
        Shares::Virtual => Ok(None),
    }
}

/// The amount by which all others are shifted by the clock. `None` if the client is not idle, or nothing is queued.
fn shift_by_clock<T: Tag>(
    clients: &[Client<T>],
    arriving: &Client<T>,
    t: T,
) -> Result<Option<T>, Refusal>
    ensures { result ≡ rules_of.shift_of T.ops Clock clients.now arriving.now t }
{
    if !arriving.is_idle() {
        return Ok(None);
    }
    match best_place(clients, &Set::All) {
        None => Ok(None),
        Some(least) => {
            let least = &clients[least.client].requests()[least.request];
            match least.tags.p.minus(t) {
                None => Err(Refusal::Range),
                Some(amount) => Ok(Some(amount)),
            }
        }
    }
}

/// The tags of a client's new request.
fn assigned<T: Tag>(
    hz: u32,
    client: &Client<T>,
    params: ReqParams,
    t: T,
    floor: T,
) -> Result<Tags<T>, Refusal>
    ensures { result ≡ rules_of.assigned T.ops hz client.now params t floor }
{
    let Ok(spacings) = spacings_for(hz, client.info()) else {
        return Err(Refusal::Range);
    };
    next_tags(&spacings, client.previous(), params, t, floor).ok_or(Refusal::Range)
}

/// Shifts the clients by the amount, if there is one.
fn shift_clients<T: Tag>(clients: &mut Vec<Client<T>>, shift: Option<T>)
    ensures items { clients.new.items ≡ rules_of.shifted_by T.ops shift clients.old.items }
    ensures len { vec_len clients.new ≡ vec_len clients.old }
{
    if let Some(amount) = shift {
        change_all(clients, &ClientShift { amount });
    }
}
