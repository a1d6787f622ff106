//! The indexed queue.
ghost use Rattle.std.specs.Prelude.{◌≡◌, ◌≤◌, ◌==◌, length};
ghost use Rattle.dmc_head_index.specs.Heads as heads_of;
ghost use Rattle.dmc_head_index.specs.Heads.{Ranks};
ghost use Rattle.dmc_pull.specs.FirstRequests.{AreFirstRequests};
ghost use Rattle.dmc_pull.specs.Queue.{state_of};
ghost use Rattle.dmc_tag.specs.State.{opening, effective, queued_requests};

mod adding;
mod pulling;
mod registering;

use crate::cleaning::{age_all, count_erased, count_idled};
use crate::granting::{AllowAll, PullFault};
use crate::heads::{clear, renew_queued};
use crate::range::{ShareRange, first_range, widen_between};
use crate::records::first_tags;
use dmc_client::record::ClientRec;
use dmc_head_index::heads::Heads;
use dmc_index::index::Indexes;
use dmc_roster::roster::Roster;
use dmc_tag::plain::Progress;
use dmc_tag::progress::no_progress;
use dmc_tag::reply::{Pulled, Tags};
use dmc_tag::scheduler::Scheduler;
use dmc_tag::tag::Tag;
use dmc_types::config::{Counting, QueueConfig};
use dmc_types::ids::{ClientId, Token};
use dmc_types::info::ClientInfo;
use dmc_types::moment::Moment;
use dmc_types::params::ReqParams;
use dmc_types::refusal::{QueueFault, Refusal};
use std::alloc::Global;
use std::marker::Model;

/// Wrapper without bounds: the toolchain cannot drop a struct generic in `Indexes` that holds this field directly.
#[derive(Drop)]
struct Droppable<P>(P);

/// A queue that stores each client's requests apart, and the first ones in three indexes. Contracts see its clients in order of
/// registration and what the indexes hold.
#[derive(Drop)]
pub struct PullQueue<T: Tag, I: Indexes<T>> {
    config: QueueConfig,
    roster: Roster<T>,
    heads: Droppable<Heads<T, I>>,
    // The number of queued requests.
    queued: usize,
    // Between which two tags each P lies, if that is known.
    range: Option<ShareRange<T>>,
    // How far the service has come, if shares are in virtual time.
    progress: Progress<T>,
    last_moment: Moment,
    alloc: Global,
}

impl<T: Tag, I: Indexes<T>> Model for PullQueue<T, I> {
    ghost use Rattle.dmc_pull.specs.Queue.{Queue, IsQueue};
    ghost use Rattle.dmc_pull.specs.internal.ShareRange.{AreWithin};

    ghost Value = { Queue T };

    ghost view = { λ q. record { config = q.config; roster = q.roster; heads = q.heads.0; last_moment = q.last_moment; progress = q.progress } };

    ghost invariant = { λ q. IsQueue T.ops T.fraction T.is_value (record { config = q.config; roster = q.roster; heads = q.heads.0; last_moment = q.last_moment; progress = q.progress }) q.queued × AreWithin T.ops q.range q.roster.entries };
}

impl<T: Tag, I: Indexes<T>> PullQueue<T, I> {
    /// An empty queue. It does not allocate.
    pub fn new(alloc: Global, config: QueueConfig) -> PullQueue<T, I>
        ensures { state_of result ≡ opening T.ops config }
    {
        PullQueue {
            config,
            roster: Roster::new(alloc),
            heads: Droppable(Heads::new(alloc)),
            queued: 0,
            range: first_range(config.shares()),
            progress: no_progress(),
            last_moment: Moment::zero(),
            alloc,
        }
    }

    /// The configuration that it was made with.
    pub fn config(&self) -> QueueConfig
        ensures { result ≡ (state_of self.now).config }
    {
        self.config
    }

    /// Whether nothing is queued, under Ceph's name.
    pub fn empty(&self) -> bool
        ensures { result ≡ (length (queued_requests (state_of self.now).clients) == 0) }
    {
        self.queued == 0
    }

    /// Whether nothing is queued, under the name that Rust's collections have.
    pub fn is_empty(&self) -> bool
        ensures { result ≡ (length (queued_requests (state_of self.now).clients) == 0) }
    {
        self.empty()
    }

    /// The index by R: each client with a queued request has one key, under the tag of its first request, and no other
    /// client has a key. The three indexes have the same keys.
    pub fn reservation_index(&self) -> &I::ReservationIndex
        ensures heads { AreFirstRequests T.ops (state_of self.now) self.now.heads }
        ensures ranks { Ranks heads_of.tag_rank self.now.heads (I.ReservationIndex.slots result.now) }
    {
        self.heads.0.by_reservation()
    }

    /// The index by L, unready ones first. A ready mark is true only if L is at most the last effective moment.
    pub fn limit_index(&self) -> &I::LimitIndex
        ensures heads { AreFirstRequests T.ops (state_of self.now) self.now.heads }
        ensures ranks { Ranks heads_of.limit_rank self.now.heads (I.LimitIndex.slots result.now) }
    {
        self.heads.0.by_limit()
    }

    /// The index by P, ready ones first.
    pub fn weight_index(&self) -> &I::WeightIndex
        ensures heads { AreFirstRequests T.ops (state_of self.now) self.now.heads }
        ensures ranks { Ranks heads_of.ready_rank self.now.heads (I.WeightIndex.slots result.now) }
    {
        self.heads.0.by_weight()
    }

    /// The effective moment of a call.
    fn effective(&self, at: Moment) -> Moment
        ensures value { result ≡ effective (state_of self.now) at }
        ensures later { self.now.last_moment ≤ result }
    {
        at.later(self.last_moment)
    }

    /// The effective moment of the last accepted call.
    fn last_moment(&self) -> Moment
        ensures { result ≡ self.now.last_moment }
    {
        self.last_moment
    }
}

impl<T: Tag, I: Indexes<T>> Scheduler<T> for PullQueue<T, I> {
    ghost state = { λ q. state_of q };

    fn register(
        &mut self,
        client: ClientId,
        info: ClientInfo,
        at: Moment,
    ) -> Result<(), QueueFault> {
        let at = self.effective(at);
        let spacings = self.can_register(client, info)?;
        let rec = ClientRec::new(self.alloc, info, spacings, at);
        self.admit(client, rec, at)
    }

    fn update_info(
        &mut self,
        client: ClientId,
        info: ClientInfo,
        at: Moment,
    ) -> Result<(), Refusal> {
        let at = self.effective(at);
        let (key, spacings) = self.can_update(client, info)?;
        self.roster.at_mut(key).set_info(info, spacings);
        self.last_moment = at;
        Ok(())
    }

    fn add_request(
        &mut self,
        client: ClientId,
        token: Token,
        params: ReqParams,
        at: Moment,
    ) -> Result<Tags<T>, QueueFault> {
        self.add_request_with_hint(client.0 as usize, client, token, params, at)
    }

    fn add_request_with_hint(
        &mut self,
        hint: usize,
        client: ClientId,
        token: Token,
        params: ReqParams,
        at: Moment,
    ) -> Result<Tags<T>, QueueFault> {
        let at = self.effective(at);
        let addition = self.can_add(client, hint, params, at)?;
        let tags = addition.tags;
        self.queue(client, token, params.cost(), addition, at)?;
        Ok(tags)
    }

    fn pull_request(&mut self, at: Moment) -> Result<Pulled, Refusal> {
        match self.pull_allowed(at, &AllowAll) {
            Ok(pulled) => Ok(pulled),
            Err(PullFault::Refused(refusal)) => Err(refusal),
            Err(PullFault::Declined) => unreachable!(),
        }
    }

    fn remove_by_client(&mut self, client: ClientId) -> Result<u32, Refusal> {
        let Some(key) = self.roster.find(client) else {
            return Err(Refusal::Unknown);
        };
        let count = self.roster.at_mut(key).drain();
        clear(&mut self.heads.0, key, count);
        self.queued -= count;
        Ok(count as u32)
    }

    fn cancel(
        &mut self,
        client: ClientId,
        token: Token,
        counting: Counting,
    ) -> Result<u32, Refusal> {
        let Some(key) = self.roster.find(client) else {
            return Err(Refusal::Unknown);
        };
        let rec = self.roster.at_mut(key);
        let queued = rec.len();
        let count = rec.cancel(token, counting);
        let tags = first_tags(rec);
        widen_between(&mut self.range, tags, rec.previous().p);
        self.queued -= count;
        renew_queued(
            &mut self.heads.0,
            queued,
            key,
            client,
            tags,
            self.last_moment,
        );
        Ok(count as u32)
    }

    fn clean(&mut self, at: Moment) -> (u32, u32) {
        let at = self.effective(at);
        let (idle_age, erase_age) = (self.config.idle_age(), self.config.erase_age());
        let idled = count_idled(&self.roster, at, idle_age, erase_age);
        let erased = count_erased(&self.roster, at, erase_age);
        age_all(&mut self.roster, at, idle_age, erase_age);
        self.last_moment = at;
        (idled as u32, erased as u32)
    }

    fn client_count(&self) -> u32 {
        self.roster.len() as u32
    }

    fn request_count(&self) -> u32 {
        self.queued as u32
    }
}
