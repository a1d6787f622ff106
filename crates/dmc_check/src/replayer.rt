//! Segments of a history are replayed one after the other, in the memory of one queue.
ghost use Rattle.std.specs.Prelude.{◌≡◌, ◌↔◌, ◌++◌, [], ◌∷◌, drop, length, IfOk, IfSome, IsErrOf, IsSome, OnErr, OnOk};
ghost use Rattle.dmc_tag.specs.Replay.{after, replays};
ghost use Rattle.dmc_pull.specs.Queue.{state_of};
ghost use Rattle.dmc_check.specs.Replaying.{AddsPart, Refuses};
ghost use Rattle.dmc_check.specs.Verdicts.{IsVerdict};

use crate::check::Verdict;
use crate::ghost_list::GhostList;
use crate::replay::Replay;
use dmc_heap::adaptive_index::HeapIndexes;
use dmc_ledger::setup::Setup;
use dmc_pull::queue::PullQueue;
use dmc_queue_history::list::EventList;
use dmc_queue_history::segment::Segment;
use dmc_tag::event::Event;
use dmc_tag::tag::Tag;
use dmc_types::config::QueueConfig;
use dmc_types::ids::ServerId;
use std::alloc::{AllocError, Global};
use std::marker::Model;
use thiserror::Error;

/// Why events were not replayed, or not all of them.
#[derive(Clone, Copy, Debug, PartialEq, Eq, Error)]
pub enum ReplayFault {
    /// They do not begin where the last ones ended. Nothing was replayed.
    #[error("events are missing before these")]
    Gap,
    /// They are of a queue with another configuration, or of another server. Nothing was replayed.
    #[error("the events are of another queue")]
    Other,
    /// The allocator refused a growth. What was replayed before that stays replayed.
    #[error("out of memory")]
    Memory,
}

impl From<AllocError> for ReplayFault {
    ghost use Rattle.dmc_check.specs.declared.replayer.ReplayFault.TheVariants.{Memory};

    ghost from_gives = { λ _ fault. fault ≡ Memory };

    fn from(_: AllocError) -> ReplayFault {
        ReplayFault::Memory
    }
}

/// Replays the history of a server's queue, as its segments come, in the memory of one queue. Contracts see all events that were
/// handed in so far. A queue that represents the state after them can take over: see `into_queue`.
#[derive(Drop)]
pub struct Replayer<T: Tag> {
    config: QueueConfig,
    server: ServerId,
    replay: Replay<T>,
    events: GhostList<Event<T>>,
}

impl<T: Tag> Model for Replayer<T> {
    ghost use Rattle.dmc_check.specs.Replaying.{ReplayerState};
    ghost use Rattle.dmc_check.specs.Verdicts.{RepresentsEvents};

    ghost Value = { ReplayerState T };

    ghost view = { λ r. record { config = r.config; server = r.server.0; events = r.events.items } };

    ghost invariant = { λ r. RepresentsEvents T.ops r.config r.events.items r.replay };
}

impl<T: Tag> Replayer<T> {
    /// A replayer of no event yet, of a queue of this configuration at a server.
    pub fn new(alloc: Global, config: QueueConfig, server: ServerId) -> Replayer<T>
        ensures { result ≡ record { config = config; server = server.0; events = [] } }
    {
        Replayer {
            config,
            server,
            replay: Replay::new(alloc, config),
            events: GhostList::new(),
        }
    }

    /// How many events were handed in, which is the number of the next one.
    pub fn event_count(&self) -> u64
        ensures { result ≡ length self.now.events }
    {
        self.replay.events() as u64
    }

    /// Whether the events so far replay, or which is the first that does not.
    pub fn verdict(&self) -> Verdict
        ensures verdict { IsVerdict T.ops self.now.config self.now.events result }
        ensures exactly { (result ≡ Verdict.Replays) ↔ replays T.ops self.now.config self.now.events }
    {
        self.replay.verdict()
    }

    /// Replays the next segment: whether all events so far replay, or which is the first that does not. What the segment says of
    /// itself is no premise of that.
    ///
    /// Refused `Other`, `Gap`, `Memory`.
    pub fn replay<S: Setup>(&mut self, segment: &Segment<T, S>) -> Result<Verdict, ReplayFault>
        ensures replayed { OnOk result (self.new ≡ record self.old { events = self.old.events ++ drop segment.now.first segment.now.history }) }
        ensures verdict { IfOk result (IsVerdict T.ops self.new.config self.new.events) }
        ensures exactly { IfOk result (λ v. (v ≡ Verdict.Replays) ↔ replays T.ops self.new.config self.new.events) }
        ensures other { IsErrOf result ReplayFault.Other
            ↔ ((segment.now.config ≡ self.old.config) × (segment.now.server ≡ self.old.server) → ⊥) }
        ensures gap { IsErrOf result ReplayFault.Gap
            ↔ ((segment.now.config ≡ self.old.config) × (segment.now.server ≡ self.old.server)
            × (segment.now.first ≡ length self.old.events → ⊥)) }
        ensures refused { Refuses self.old self.new (drop segment.now.first segment.now.history) result }
    {
        if segment.config() != self.config || segment.server() != self.server {
            return Err(ReplayFault::Other);
        }
        self.replay_events(segment.first(), segment.events())
    }

    /// Replays events that came another way than as a segment, of which the first has a number: see `replay`. That they are of
    /// this server and its configuration is for the caller to know.
    ///
    /// Refused `Gap`, `Memory`.
    pub fn replay_events<L: EventList<T>>(
        &mut self,
        first: u64,
        events: &L,
    ) -> Result<Verdict, ReplayFault>
        ensures replayed { OnOk result (self.new ≡ record self.old { events = self.old.events ++ L.events events.now }) }
        ensures verdict { IfOk result (IsVerdict T.ops self.new.config self.new.events) }
        ensures exactly { IfOk result (λ v. (v ≡ Verdict.Replays) ↔ replays T.ops self.new.config self.new.events) }
        ensures gap { IsErrOf result ReplayFault.Gap ↔ (first ≡ length self.old.events → ⊥) }
        ensures not_other { IsErrOf result ReplayFault.Other → ⊥ }
        ensures refused { Refuses self.old self.new (L.events events.now) result }
    {
        if first != self.event_count() {
            return Err(ReplayFault::Gap);
        }
        self.add_all(events)?;
        Ok(self.verdict())
    }

    /// Replays one more event.
    fn add(&mut self, event: &Event<T>) -> Result<(), AllocError>
        ensures added { OnOk result (self.new ≡ record self.old { events = self.old.events ++ event.now ∷ [] }) }
        ensures kept { OnErr result (self.new ≡ self.old) }
    {
        self.replay.add(event)?;
        self.events = self.events.with(event);
        Ok(())
    }

    /// Replays the events of a list.
    fn add_all<L: EventList<T>>(&mut self, events: &L) -> Result<(), AllocError>
        ensures all { OnOk result (self.new ≡ record self.old { events = self.old.events ++ L.events events.now }) }
        ensures part { AddsPart self.old self.new (L.events events.now) }
    {
        for index in 0..events.count() {
            if let Some(event) = events.event_at(index) {
                self.add(&event)?;
            }
        }
        Ok(())
    }

    /// A queue in the state after all events, with every tag as it was at the queue that was recorded; `None` exactly if they do
    /// not replay. So a standby takes over.
    pub fn into_queue(self) -> Option<PullQueue<T, HeapIndexes>>
        ensures some { IsSome result ↔ replays T.ops self.config self.events }
        ensures state { IfSome result (λ queue. state_of queue ≡ after T.ops self.config self.events) }
    {
        self.replay.into_queue()
    }
}
