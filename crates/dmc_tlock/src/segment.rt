//! Segments of a tracker's list.
ghost use Rattle.std.specs.Prelude.{◌≡◌, ◌↔◌, ◌≤◌, drop, length, take, IsTrue};
ghost use Rattle.dmc_tracker.specs.TrackerList.{IsTracked};
ghost use Rattle.dmc_shared.specs.Segmented.{max_released};

use dmc_history::History;
use dmc_ledger::setup::Setup;
use dmc_shared::segment::ListSegment;
use dmc_tracker::event::TrackerEvent;
use dmc_types::config::Counting;
use dmc_types::ids::ClientId;
use std::marker::Model;

/// Entries that a tracker's list released. Contracts see the list up to the end of the segment; the segment has the last of
/// it, from the number `first` on, and knows nothing of the entries before at run time. It is an extension.
///
/// It may be sent to another thread.
#[derive(Drop)]
pub struct TrackerSegment<S: Setup> {
    client: ClientId,
    pub(crate) counting: Counting,
    part: ListSegment<History<TrackerEvent>, S>,
}

impl<S: Setup> Model for TrackerSegment<S> {
    ghost use Rattle.dmc_tracker.specs.TrackerList.{IsTracked};
    ghost use Rattle.dmc_tlock.specs.Segments.{TrackerSegmentState};

    ghost Value = { TrackerSegmentState };

    ghost view = { λ s. record { client = s.client.0; counting = s.counting; number = s.part.number; history = s.part.history; first = s.part.first } };

    ghost invariant = { λ s. IsTracked s.counting s.part.history };
}

impl<S: Setup> TrackerSegment<S> {
    /// The segment of the list of a client's tracker in this counting form.
    pub(crate) fn new(
        client: ClientId,
        counting: Counting,
        part: ListSegment<History<TrackerEvent>, S>,
    ) -> TrackerSegment<S>
        requires { IsTracked counting part.history }
        ensures { result ≡ record { client = client.0; counting = counting; number = part.number; history = part.history; first = part.first } }
    {
        TrackerSegment {
            client,
            counting,
            part,
        }
    }

    /// Whose list it is of.
    pub fn client(&self) -> ClientId
        ensures { result.0 ≡ self.now.client }
    {
        self.client
    }

    /// Which completions the stamps count.
    pub fn counting(&self) -> Counting
        ensures { result ≡ self.now.counting }
    {
        self.counting
    }

    /// The number of its first entry: how many entries were released before.
    pub fn first(&self) -> u64
        ensures value { result ≡ self.now.first }
        ensures within { result ≤ length self.now.history }
        ensures few { result ≤ max_released }
    {
        self.part.first()
    }

    /// Its entries.
    pub fn entries(&self) -> &History<TrackerEvent>
        ensures { result.now.events ≡ drop self.now.first self.now.history }
    {
        self.part.kept()
    }

    /// Whether the other segment is the next of the same list. If it is, what comes before the other is what this one ends.
    pub fn follows(&self, next: &TrackerSegment<S>) -> bool
        ensures exact { IsTrue result ↔ (self.now.number ≡ next.now.number) × (next.now.first ≡ length self.now.history) }
        ensures before { IsTrue result → take next.now.first next.now.history ≡ self.now.history }
    {
        self.part.follows(&next.part)
    }
}
