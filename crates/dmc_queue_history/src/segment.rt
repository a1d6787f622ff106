//! Segments of a queue's history.
ghost use Rattle.std.specs.Prelude.{◌≡◌, ◌↔◌, ◌≤◌, drop, length, take, IsTrue};
ghost use Rattle.dmc_tag.specs.Replay.{replays};
ghost use Rattle.dmc_shared.specs.Segmented.{max_released};

use crate::history::EventHistory;
use dmc_ledger::setup::Setup;
use dmc_shared::segment::ListSegment;
use dmc_tag::tag::Tag;
use dmc_types::config::QueueConfig;
use dmc_types::ids::ServerId;
use std::marker::Model;

/// Events that a queue's history released. Contracts see the whole history up to the end of the segment, which replays;
/// the segment has the last of it, from the number `first` on, and knows nothing of the events before at run time.
///
/// It may be sent to another thread.
#[derive(Drop)]
pub struct Segment<T: Tag, S: Setup> {
    pub(crate) config: QueueConfig,
    server: ServerId,
    part: ListSegment<EventHistory<T>, S>,
}

impl<T: Tag, S: Setup> Model for Segment<T, S> {
    ghost use Rattle.dmc_tag.specs.Replay.{replays};
    ghost use Rattle.dmc_queue_history.specs.Segmented.{SegmentState};

    ghost Value = { SegmentState T };

    ghost view = { λ s. record { config = s.config; server = s.server.0; number = s.part.number; history = s.part.history; first = s.part.first } };

    ghost invariant = { λ s. replays T.ops s.config s.part.history };
}

impl<T: Tag, S: Setup> Segment<T, S> {
    /// The segment of a history of a queue of this configuration at this server.
    pub fn new(
        config: QueueConfig,
        server: ServerId,
        part: ListSegment<EventHistory<T>, S>,
    ) -> Segment<T, S>
        requires { replays T.ops config part.history }
        ensures { result ≡ record { config = config; server = server.0; number = part.number; history = part.history; first = part.first } }
    {
        Segment {
            config,
            server,
            part,
        }
    }

    /// The configuration of the queue.
    pub fn config(&self) -> QueueConfig
        ensures { result ≡ self.now.config }
    {
        self.config
    }

    /// Whose queue it is.
    pub fn server(&self) -> ServerId
        ensures { result.0 ≡ self.now.server }
    {
        self.server
    }

    /// The number of its first event: how many events were released before.
    pub fn first(&self) -> u64
        ensures value { result ≡ self.now.first }
        ensures within { result ≤ length self.now.history }
        ensures few { result ≤ max_released }
    {
        self.part.first()
    }

    /// Its events.
    pub fn events(&self) -> &EventHistory<T>
        ensures { result.now.events ≡ drop self.now.first self.now.history }
    {
        self.part.kept()
    }

    /// Whether the other segment is the next of the same history. If it is, what comes before the other is what this one
    /// ends.
    pub fn follows(&self, next: &Segment<T, S>) -> bool
        ensures exact { IsTrue result ↔ (self.now.number ≡ next.now.number) × (next.now.first ≡ length self.now.history) }
        ensures before { IsTrue result → take next.now.first next.now.history ≡ self.now.history }
    {
        self.part.follows(&next.part)
    }
}
