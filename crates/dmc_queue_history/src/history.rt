//! The history of a queue: a list of events that only grows.
ghost use Rattle.std.specs.Prelude.{◌≡◌, ◌↔◌, ◌+◌, ◌-◌, ◌<◌, ◌≤◌, [], ◌∷◌, ◌++◌, length, min, IsTrue, OnOk, OnErr, IsErrOf, IsOk, slice_get};
ghost use Rattle.dmc_types.specs.Limits.{max_events};
ghost use Rattle.dmc_history.specs.Log.{FillBlocks, block_size};
ghost use Rattle.dmc_types.specs.declared.command.Command.TheVariants as commands;
ghost use Rattle.dmc_tag.specs.declared.reply.Reply.TheVariants as replies;
ghost use Rattle.dmc_queue_history.specs.Kept.{event_of_added, event_of_granted};

use crate::kept::{Granted, Request, asked_to_add, marked_pull};
use crate::lists::Lists;
use dmc_history::{BLOCK, History, LimitFault, ReserveFault};
use dmc_tag::event::Event;
use dmc_tag::reply::{Reply, Tags};
use dmc_tag::tag::Tag;
use dmc_types::command::Command;
use dmc_types::config::PhaseType;
use dmc_types::cost::Cost;
use dmc_types::ids::{ClientId, Token, WorkerId};
use dmc_types::moment::Moment;
use dmc_types::params::ReqParams;
use std::alloc::Global;
use std::marker::Model;

/// A request that was added: what its event says of it.
#[derive(Drop)]
pub struct AddedRequest<T> {
    pub worker: WorkerId,
    pub client: ClientId,
    pub token: Token,
    pub params: ReqParams,
    pub at: Moment,
    pub tags: Tags<T>,
}

/// A list of at most `most` events (1 to 2^30), oldest first: a `History<Event<T>>` in less memory. With tick tags it takes 28
/// bytes for a grant, and 84 for a request that was queued, or 52 if the client has no reservation and the limit's tag is the
/// moment (as it is within a limit, or without one), in place of 112, whatever the costs.
///
/// An event goes in by two calls: `reserve_one`, which may need memory, and a push, which needs none. Each push uses up one
/// reserved place. Contracts see the events, `most`, and how many places are reserved.
#[derive(Drop)]
pub struct EventHistory<T: Tag> {
    // If each event is.
    places: History<u32>,
    lists: Lists<T>,
    // How many more events have a place, whatever their form.
    room: usize,
}

impl<T: Tag> Model for EventHistory<T> {
    ghost use Rattle.dmc_tag.specs.declared.event.Event.{Event};
    ghost use Rattle.dmc_history.specs.Log.{Log};
    ghost use Rattle.dmc_queue_history.specs.Kept.{IsKept, events_at, kept_of};

    ghost Value = { Log (Event T) };

    ghost view = { λ h. record { events = events_at T.ops (kept_of h.lists) h.places.events; most = h.places.most; room = h.room } };

    ghost invariant = { λ h. IsKept T.ops h.lists h.places h.room };
}

impl<T: Tag> EventHistory<T> {
    /// An empty history of at most `most` events, which does not allocate; refused `Limit` if `most` is not 1 to 2^30.
    pub fn new(alloc: Global, most: u32) -> Result<EventHistory<T>, LimitFault>
        ensures ok { (0 < most) × (most ≤ max_events) → result ≡ Ok (record { events = []; most = most; room = 0 }) }
        ensures refused { ((0 < most) × (most ≤ max_events) → ⊥) → result ≡ Err LimitFault.Limit }
    {
        let places = History::new(alloc, most)?;
        Ok(EventHistory {
            places,
            lists: Lists::new(alloc, most),
            room: 0,
        })
    }

    /// How many events it has.
    pub fn len(&self) -> usize
        ensures value { result ≡ length self.now.events }
        ensures bound { result + self.now.room ≤ self.now.most }
    {
        self.places.len()
    }

    /// Whether it has no event.
    pub fn is_empty(&self) -> bool
        ensures { IsTrue result ↔ (self.now.events ≡ []) }
    {
        self.len() == 0
    }

    /// How many events it may have.
    pub fn most(&self) -> u32
        ensures value { result ≡ self.now.most }
        ensures some { 0 < result }
        ensures limit { result ≤ max_events }
    {
        self.places.most()
    }

    /// The event at an index, counted from 0, or `None` past the end.
    pub fn at(&self, index: usize) -> Option<Event<T>>
        ensures { result ≡ slice_get self.now.events index }
    {
        let place = *self.places.at(index)?;
        self.lists.at(place)
    }

    /// Reserves a place, which the next push uses: refused `HistoryFull` exactly if it has its `most` events, then
    /// `Memory` if the allocator refused a growth. A place that is reserved already serves again, and needs no memory. If
    /// none is, a whole block of places is reserved: 1,024, or as many as it may still have. So `Memory` comes only if the
    /// events fill their blocks.
    pub fn reserve_one(&mut self) -> Result<(), ReserveFault>
        ensures ok { OnOk result (0 < self.new.room) }
        ensures fewer { OnOk result (length self.old.events < self.old.most) }
        ensures block { OnOk result (self.old.room ≡ 0
            → self.new.room ≡ min block_size (self.old.most - length self.old.events)) }
        ensures full { IsErrOf result ReserveFault.HistoryFull ↔ (length self.old.events ≡ self.old.most) }
        ensures memory { IsErrOf result ReserveFault.Memory → FillBlocks (length self.old.events) }
        ensures reserved { 0 < self.old.room → IsOk result }

        // The events stay, whatever the result, and so does a place that was there.
        ensures events { self.new.events ≡ self.old.events }
        ensures most { self.new.most ≡ self.old.most }
        ensures kept { 0 < self.old.room → self.new.room ≡ self.old.room }
        ensures err { OnErr result (self.new.room ≡ self.old.room) }
    {
        if self.room > 0 {
            return Ok(());
        }
        self.reserve_more()
    }

    /// Reserves a block of places, if none is. Each list gets as many: so the places end where those of the order do, at
    /// every 1,024 events, whatever the forms of the events.
    #[inline(never)]
    fn reserve_more(&mut self) -> Result<(), ReserveFault>
        requires { self.old.room ≡ 0 }
        ensures fewer { OnOk result (length self.old.events < self.old.most) }
        ensures block { OnOk result (self.new.room ≡ min block_size (self.old.most - length self.old.events)) }
        ensures full { IsErrOf result ReserveFault.HistoryFull ↔ (length self.old.events ≡ self.old.most) }
        ensures memory { IsErrOf result ReserveFault.Memory → FillBlocks (length self.old.events) }
        ensures events { self.new.events ≡ self.old.events }
        ensures most { self.new.most ≡ self.old.most }
        ensures err { OnErr result (self.new.room ≡ self.old.room) }
    {
        self.places.reserve_one()?;
        let more = self.places.room().min(BLOCK);
        self.lists.reserve(more)?;
        self.room = more;
        Ok(())
    }

    /// Puts a request that was added at the end, in a reserved place.
    #[inline(always)]
    pub fn push_added(&mut self, added: AddedRequest<T>)
        requires { 0 < self.old.room }
        ensures events { self.new.events ≡ self.old.events ++ event_of_added added ∷ [] }
        ensures most { self.new.most ≡ self.old.most }
        ensures used { self.new.room + 1 ≡ self.old.room }
    {
        let place = self.lists.push_added(added);
        self.places.push_reserved(place);
        self.room -= 1;
    }

    /// Puts a request that was granted at the end, in a reserved place.
    #[inline(always)]
    fn push_granted(&mut self, granted: Granted)
        requires { 0 < self.old.room }
        ensures events { self.new.events ≡ self.old.events ++ event_of_granted granted ∷ [] }
        ensures most { self.new.most ≡ self.old.most }
        ensures used { self.new.room + 1 ≡ self.old.room }
    {
        let place = self.lists.push_granted(granted);
        self.places.push_reserved(place);
        self.room -= 1;
    }

    /// Puts an event at the end as it is, in a reserved place.
    #[inline(never)]
    fn push_other(&mut self, event: Event<T>)
        requires { 0 < self.old.room }
        ensures events { self.new.events ≡ self.old.events ++ event ∷ [] }
        ensures most { self.new.most ≡ self.old.most }
        ensures used { self.new.room + 1 ≡ self.old.room }
    {
        let place = self.lists.push_other(event);
        self.places.push_reserved(place);
        self.room -= 1;
    }

    /// Puts an event at the end, in a reserved place.
    #[inline(always)]
    pub fn push_reserved(&mut self, event: Event<T>)
        requires { 0 < self.old.room }
        ensures events { self.new.events ≡ self.old.events ++ event ∷ [] }
        ensures most { self.new.most ≡ self.old.most }
        ensures used { self.new.room + 1 ≡ self.old.room }
    {
        let Event {
            worker,
            command,
            reply,
        } = event;
        match reply {
            Reply::Tagged(tags) => self.push_tagged(worker, command, tags),
            Reply::Granted {
                client,
                token,
                phase,
                beyond,
                cost,
            } => self.push_grant(worker, command, client, token, phase, beyond, cost),
            _ => self.push_other(Event {
                worker,
                command,
                reply,
            }),
        }
    }

    /// Puts a command whose reply was tags at the end.
    #[inline(never)]
    fn push_tagged(&mut self, worker: WorkerId, command: Command, tags: Tags<T>)
        requires { 0 < self.old.room }
        ensures events { self.new.events ≡ self.old.events
            ++ record { worker = worker; command = command; reply = replies.Tagged tags } ∷ [] }
        ensures most { self.new.most ≡ self.old.most }
        ensures used { self.new.room + 1 ≡ self.old.room }
    {
        match asked_to_add(&command) {
            Some(
                Request {
                    client,
                    token,
                    params,
                    at,
                },
            ) => self.push_added(AddedRequest {
                worker,
                client,
                token,
                params,
                at,
                tags,
            }),
            None => self.push_other(Event {
                worker,
                command,
                reply: Reply::Tagged(tags),
            }),
        }
    }

    /// Puts a command whose reply was a grant at the end.
    #[inline(always)]
    fn push_grant(
        &mut self,
        worker: WorkerId,
        command: Command,
        client: ClientId,
        token: Token,
        phase: PhaseType,
        beyond: bool,
        cost: Cost,
    )
        requires { 0 < self.old.room }
        ensures events { self.new.events ≡ self.old.events
            ++ record { worker = worker; command = command; reply = replies.Granted client token phase beyond cost } ∷ [] }
        ensures most { self.new.most ≡ self.old.most }
        ensures used { self.new.room + 1 ≡ self.old.room }
    {
        match marked_pull(&command, phase, beyond) {
            Some(marked) => self.push_granted(Granted {
                marked,
                worker,
                client,
                token,
                cost,
            }),
            None => self.push_other(Event {
                worker,
                command,
                reply: Reply::Granted {
                    client,
                    token,
                    phase,
                    beyond,
                    cost,
                },
            }),
        }
    }

    /// Takes out all events, and with them the places that are reserved. It does not allocate.
    pub fn take(&mut self) -> EventHistory<T>
        ensures value { result ≡ self.old }
        ensures within { length result.events ≤ result.most }
        ensures limit { result.most ≤ max_events }
        ensures empty { self.new ≡ record { events = []; most = self.old.most; room = 0 } }
    {
        let taken = EventHistory {
            places: self.places.take(),
            lists: self.lists.take(),
            room: self.room,
        };
        self.room = 0;
        taken
    }
}
