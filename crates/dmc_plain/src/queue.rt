//! The reference queue.
ghost use Rattle.std.specs.Prelude.{◌≡◌, ◌<◌, ◌&&◌, length, OnOk, IfOk, Some, None, slice_get, ◌==◌};
ghost use Rattle.std.specs.Result.{result_map_both};
ghost use Rattle.dmc_types.specs.Limits.{max_clients};
ghost use Rattle.dmc_tag.specs.Rules as rules_of;
ghost use Rattle.dmc_tag.specs.State as state;
ghost use Rattle.dmc_tag.specs.State.{opening, effective, queued_requests};

mod adding;
mod pulling;

use crate::best::{Set, best_place};
use crate::cancelling::count;
use crate::changes::{Mark, change_all};
use crate::cleaning::{count_erased, count_idled, erase};
use crate::client::Client;
use crate::clients::{count_requests, index_of};
use dmc_tag::plain::Progress;
use dmc_tag::progress::no_progress;
use dmc_tag::reply::{Pulled, Tags};
use dmc_tag::scheduler::Scheduler;
use dmc_tag::spacing::{Spacings, spacings_for};
use dmc_tag::tag::Tag;
use dmc_types::config::{Counting, QueueConfig};
use dmc_types::ids::{ClientId, Token};
use dmc_types::info::ClientInfo;
use dmc_types::limits::MAX_CLIENTS;
use dmc_types::moment::Moment;
use dmc_types::params::ReqParams;
use dmc_types::refusal::{QueueFault, Refusal};
use std::alloc::Global;
use std::marker::Model;

/// The queue of the definitions: a list of clients, each with its requests, which each call scans. Contracts see it as a plain
/// state.
#[derive(Drop)]
pub struct PlainQueue<T> {
    config: QueueConfig,
    clients: Vec<Client<T>>,
    last_moment: Moment,
    progress: Progress<T>,
}

impl<T> Model for PlainQueue<T> {
    ghost use Rattle.dmc_types.specs.Limits.{max_clients, max_requests};
    ghost use Rattle.dmc_tag.specs.State.{State};
    ghost use Rattle.dmc_plain.specs.internal.Kept.{IsKept};

    ghost Value = { State T };

    ghost view = { λ q. record { config = q.config; clients = q.clients.items; last_moment = q.last_moment; progress = q.progress } };

    ghost invariant = { λ q. IsKept max_clients max_requests q.clients.items };
}

impl<T: Tag> PlainQueue<T> {
    /// An empty queue. It does not allocate.
    pub fn new(alloc: Global, config: QueueConfig) -> PlainQueue<T>
        ensures { result ≡ opening T.ops config }
    {
        PlainQueue {
            config,
            clients: Vec::new(alloc),
            last_moment: Moment::zero(),
            progress: no_progress(),
        }
    }

    /// The effective moment of a call.
    fn effective(&self, at: Moment) -> Moment
        ensures { result ≡ effective self.now at }
    {
        at.later(self.last_moment)
    }
}

/// Whether the rates give a reservation, or take it.
fn changes_reservation(old: ClientInfo, new: ClientInfo) -> bool
    ensures { result ≡ rules_of.changes_reservation old new }
{
    old.reservation().is_some() != new.reservation().is_some()
}

/// Whether queued requests forbid these rates to a client.
fn is_busy<T>(client: &Client<T>, info: ClientInfo) -> bool
    ensures { result ≡ (rules_of.changes_reservation client.now.info info && state.is_busy client.now) }
{
    changes_reservation(client.info(), info) && client.is_busy()
}

impl<T: Tag> PlainQueue<T> {
    /// The tests of a registration.
    fn can_register(&self, client: ClientId, info: ClientInfo) -> Result<(), Refusal>
        ensures outcome { result ≡ rules_of.can_register T.ops self.now client info }
        ensures room { OnOk result (length self.now.clients < max_clients) }
        ensures new { OnOk result (state.client_named client self.now.clients ≡ None) }
    {
        if index_of(&self.clients, client).is_some() {
            return Err(Refusal::Known);
        }
        let _exact: Spacings<T> = spacings_for(self.config.hz(), info)?;
        if self.clients.len() >= MAX_CLIENTS as usize {
            return Err(Refusal::Clients);
        }
        Ok(())
    }

    /// The tests of an update, and the client's index.
    fn can_update(&self, client: ClientId, info: ClientInfo) -> Result<usize, Refusal>
        ensures outcome { result_map_both (λ _. tt) (λ e. e) result ≡ rules_of.can_update T.ops self.now client info }
        ensures client { IfOk result (λ i. slice_get self.now.clients i ≡ state.client_named client self.now.clients) }
        ensures bound { IfOk result (λ i. i < length self.now.clients) }
    {
        let Some(index) = index_of(&self.clients, client) else {
            return Err(Refusal::Unknown);
        };
        let _exact: Spacings<T> = spacings_for(self.config.hz(), info)?;
        if is_busy(&self.clients[index], info) {
            return Err(Refusal::Busy);
        }
        Ok(index)
    }

    /// Whether nothing is queued.
    pub fn empty(&self) -> bool
        ensures { result ≡ (length (queued_requests self.now.clients) == 0) }
    {
        count_requests(&self.clients) == 0
    }
}

impl<T: Tag> Scheduler<T> for PlainQueue<T> {
    ghost state = { λ q. q };

    fn register(
        &mut self,
        client: ClientId,
        info: ClientInfo,
        at: Moment,
    ) -> Result<(), QueueFault> {
        let at = self.effective(at);
        self.can_register(client, info)?;
        let alloc = *self.clients.allocator();
        let newcomer = Client::newcomer(alloc, client, info, at);
        if self.clients.push(newcomer).is_err() {
            return Err(QueueFault::Memory);
        }
        self.last_moment = at;
        Ok(())
    }

    fn update_info(
        &mut self,
        client: ClientId,
        info: ClientInfo,
        at: Moment,
    ) -> Result<(), Refusal> {
        let at = self.effective(at);
        let index = self.can_update(client, info)?;
        self.clients[index].update(info);
        self.last_moment = at;
        Ok(())
    }

    fn add_request(
        &mut self,
        client: ClientId,
        token: Token,
        params: ReqParams,
        at: Moment,
    ) -> Result<Tags<T>, QueueFault> {
        let at = self.effective(at);
        let arrival = self.can_add(client, params, at)?;
        self.queue(&arrival, token, params.cost(), at)?;
        Ok(arrival.tags)
    }

    fn pull_request(&mut self, at: Moment) -> Result<Pulled, Refusal> {
        let at = self.effective(at);
        match best_place(&self.clients, &Set::Early(at)) {
            Some(place) => Ok(self.grant_early(place, at)),
            None => self.pull_free(at),
        }
    }

    fn remove_by_client(&mut self, client: ClientId) -> Result<u32, Refusal> {
        let Some(index) = index_of(&self.clients, client) else {
            return Err(Refusal::Unknown);
        };
        let client = &mut self.clients[index];
        let count = client.requests().len();
        client.clear();
        Ok(count as u32)
    }

    fn cancel(
        &mut self,
        client: ClientId,
        token: Token,
        counting: Counting,
    ) -> Result<u32, Refusal> {
        let Some(index) = index_of(&self.clients, client) else {
            return Err(Refusal::Unknown);
        };
        let hz = self.config.hz();
        let owner = &mut self.clients[index];
        let taken = count(owner.requests(), token);
        owner.cancel(token, counting, hz);
        Ok(taken as u32)
    }

    fn clean(&mut self, at: Moment) -> (u32, u32) {
        let at = self.effective(at);
        let idle_age = self.config.idle_age();
        let erase_age = self.config.erase_age();
        let idled = count_idled(&self.clients, at, idle_age, erase_age);
        let erased = count_erased(&self.clients, at, erase_age);
        erase(&mut self.clients, at, erase_age);
        change_all(&mut self.clients, &Mark { at, idle_age });
        self.last_moment = at;
        (idled as u32, erased as u32)
    }

    fn client_count(&self) -> u32 {
        self.clients.len() as u32
    }

    fn request_count(&self) -> u32 {
        count_requests(&self.clients) as u32
    }
}
