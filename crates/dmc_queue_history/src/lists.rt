//! The lists of a history, one for each form of event.
ghost use Rattle.std.specs.Prelude.{◌≡◌, ℕ, ◌+◌, ◌<◌, ◌≤◌, [], OnOk, IsErrOf};
ghost use Rattle.dmc_types.specs.Limits.{max_events};
ghost use Rattle.dmc_history.specs.Log.{block_size};
ghost use Rattle.dmc_queue_history.specs.Kept.{Adds, HaveMost, count, event_at, event_of_added, event_of_granted, event_of_queued, event_of_queued_by_weight, kept_of, least_room};

use crate::history::AddedRequest;
use crate::kept::{
    Granted, Queued, QueuedByWeight, event_of_granted, event_of_queued, event_of_queued_by_weight,
    is_of_moment,
};
use crate::marked::MarkedMoment;
use crate::place::{BY_WEIGHT, GRANTED, OTHERS, QUEUED, index_of, list_of, place_in};
use dmc_history::{History, ReserveFault};
use dmc_tag::event::Event;
use dmc_tag::reply::Tags;
use dmc_tag::tag::Tag;
use std::alloc::Global;

/// The events of a history, each in the list of those of its form.
#[derive(Drop)]
pub(crate) struct Lists<T: Tag> {
    pub(crate) by_weight: History<QueuedByWeight<T>>,
    pub(crate) queued: History<Queued<T>>,
    pub(crate) granted: History<Granted>,
    pub(crate) others: History<Event<T>>,
}

impl<T: Tag> Lists<T> {
    /// Empty lists, each of at most `most` events.
    pub(crate) fn new(alloc: Global, most: u32) -> Lists<T>
        requires some { 0 < most }
        requires limit { most ≤ max_events }
        ensures empty { kept_of result ≡ record { by_weight = []; queued = []; granted = []; others = [] } }
        ensures most { HaveMost result most }
    {
        Lists {
            by_weight: new_list(alloc, most),
            queued: new_list(alloc, most),
            granted: new_list(alloc, most),
            others: new_list(alloc, most),
        }
    }

    /// The event at a place.
    pub(crate) fn at(&self, place: u32) -> Option<Event<T>>
        ensures { result ≡ event_at T.ops (kept_of self.now) place }
    {
        let index = index_of(place);
        match list_of(place) {
            BY_WEIGHT => Some(event_of_queued_by_weight(self.by_weight.at(index)?)),
            QUEUED => Some(event_of_queued(self.queued.at(index)?)),
            GRANTED => Some(event_of_granted(self.granted.at(index)?)),
            _ => self.others.at(index).copied(),
        }
    }

    /// Makes sure that each list has places for `n` more events, at most a block of them.
    pub(crate) fn reserve(&mut self, n: usize) -> Result<(), ReserveFault>
        requires { n ≤ block_size }
        ensures room { OnOk result (n ≤ least_room self.new) }
        ensures kept { kept_of self.new ≡ kept_of self.old }
        ensures most { (most : ℕ) → HaveMost self.old most → HaveMost self.new most }
        ensures full { (most : ℕ) → HaveMost self.old most → IsErrOf result ReserveFault.HistoryFull → most < count (kept_of self.old) + n }
    {
        self.by_weight.reserve(n)?;
        self.queued.reserve(n)?;
        self.granted.reserve(n)?;
        self.others.reserve(n)
    }

    /// Keeps a request that was added, and answers its place.
    #[inline(always)]
    pub(crate) fn push_added(&mut self, added: AddedRequest<T>) -> u32
        requires room { 0 < least_room self.old }
        requires limit { (most : ℕ) × HaveMost self.old most × (most ≤ max_events) }
        ensures { Adds T.ops self.old self.new result (event_of_added added) }
    {
        let AddedRequest {
            worker,
            client,
            token,
            params,
            at,
            tags,
        } = added;
        let Tags { r, l, p } = tags;
        match r {
            None if is_of_moment(l, at) => self.push_by_weight(QueuedByWeight {
                p,
                at,
                worker,
                client,
                token,
                params,
            }),
            _ => self.push_with_tags(Queued {
                r: r.unwrap_or(l),
                l,
                p,
                marked: MarkedMoment::new(at, u8::from(r.is_some())),
                worker,
                client,
                token,
                params,
            }),
        }
    }

    /// Keeps a request that was queued with the tag of its weight.
    #[inline(always)]
    fn push_by_weight(&mut self, queued: QueuedByWeight<T>) -> u32
        requires room { 0 < least_room self.old }
        requires limit { (most : ℕ) × HaveMost self.old most × (most ≤ max_events) }
        ensures { Adds T.ops self.old self.new result (event_of_queued_by_weight T.ops queued) }
    {
        let place = place_in(BY_WEIGHT, self.by_weight.len());
        self.by_weight.push_reserved(queued);
        place
    }

    /// Keeps another request that was queued.
    #[inline(always)]
    fn push_with_tags(&mut self, queued: Queued<T>) -> u32
        requires room { 0 < least_room self.old }
        requires limit { (most : ℕ) × HaveMost self.old most × (most ≤ max_events) }
        ensures { Adds T.ops self.old self.new result (event_of_queued queued) }
    {
        let place = place_in(QUEUED, self.queued.len());
        self.queued.push_reserved(queued);
        place
    }

    /// Keeps a request that was granted, and answers its place.
    #[inline(always)]
    pub(crate) fn push_granted(&mut self, granted: Granted) -> u32
        requires room { 0 < least_room self.old }
        requires limit { (most : ℕ) × HaveMost self.old most × (most ≤ max_events) }
        ensures { Adds T.ops self.old self.new result (event_of_granted granted) }
    {
        let place = place_in(GRANTED, self.granted.len());
        self.granted.push_reserved(granted);
        place
    }

    /// Keeps an event as it is, and answers its place.
    pub(crate) fn push_other(&mut self, event: Event<T>) -> u32
        requires room { 0 < least_room self.old }
        requires limit { (most : ℕ) × HaveMost self.old most × (most ≤ max_events) }
        ensures { Adds T.ops self.old self.new result event }
    {
        let place = place_in(OTHERS, self.others.len());
        self.others.push_reserved(event);
        place
    }

    /// Takes out all events, and with them the places that are reserved.
    pub(crate) fn take(&mut self) -> Lists<T>
        ensures value { result ≡ self.old }
        ensures empty { kept_of self.new ≡ record { by_weight = []; queued = []; granted = []; others = [] } }
        ensures most { (most : ℕ) → HaveMost self.old most → HaveMost self.new most }
    {
        Lists {
            by_weight: self.by_weight.take(),
            queued: self.queued.take(),
            granted: self.granted.take(),
            others: self.others.take(),
        }
    }
}

/// An empty list of at most `most` events.
fn new_list<E: Drop>(alloc: Global, most: u32) -> History<E>
    requires some { 0 < most }
    requires limit { most ≤ max_events }
    ensures { result ≡ record { events = []; most = most; room = 0 } }
{
    let Ok(list) = History::new(alloc, most) else {
        unreachable!()
    };
    list
}
