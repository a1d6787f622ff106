//! A segment of a list that only grows.
ghost use Rattle.std.specs.Prelude.{◌≡◌, ◌↔◌, ◌≤◌, drop, length, take, IsTrue};
ghost use Rattle.dmc_shared.specs.Segmented.{IsLast, events_of, max_released};

use crate::kept::KeptList;
use dmc_ledger::growing::Beginning;
use dmc_ledger::setup::Setup;
use std::marker::Model;

/// Records that a list released. Contracts see the whole list up to the end of the segment; the segment has the last of it,
/// from the number `first` on, and knows nothing of the records before at run time.
///
/// It may be sent to another thread.
#[derive(Drop)]
pub struct ListSegment<L: KeptList, S: Setup> {
    number: u32,
    whole: Beginning<L, S>,
    first: u64,
    kept: L,
}

impl<L: KeptList, S: Setup> Model for ListSegment<L, S> {
    ghost use Rattle.std.specs.Prelude.{◌≡◌, ◌≤◌};
    ghost use Rattle.dmc_shared.specs.Segmented.{Ending, IsLast, events_of, max_released};

    ghost Value = { Ending L.Record };

    ghost view = { λ s. record { number = s.number; history = events_of L.log s.whole.list; first = s.first } };

    ghost invariant = { λ s. (s.whole.number ≡ s.number) × IsLast L.log s.whole.list s.kept s.first × (s.first ≤ max_released) };
}

impl<L: KeptList, S: Setup> ListSegment<L, S> {
    /// The segment of these records, from the number `first` on. `whole` is what was released of the list of a number, with
    /// them.
    pub(crate) fn new(number: u32, whole: Beginning<L, S>, first: u64, kept: L) -> ListSegment<L, S>
        requires number { whole.number ≡ number }
        requires last { IsLast L.log whole.list kept first }
        requires few { first ≤ max_released }
        ensures { result ≡ record { number = number; history = events_of L.log whole.list; first = first } }
    {
        ListSegment {
            number,
            whole,
            first,
            kept,
        }
    }

    /// The number of its first record: how many records were released before.
    pub fn first(&self) -> u64
        ensures value { result ≡ self.now.first }
        ensures within { result ≤ length self.now.history }
        ensures few { result ≤ max_released }
    {
        self.first
    }

    /// Its records.
    pub fn kept(&self) -> &L
        ensures { (L.log result.now).events ≡ drop self.now.first self.now.history }
    {
        &self.kept
    }

    /// Whether the other segment is the next of the same list. If it is, what comes before the other is what this one ends.
    pub fn follows(&self, next: &ListSegment<L, S>) -> bool
        ensures exact { IsTrue result ↔ (self.now.number ≡ next.now.number) × (next.now.first ≡ length self.now.history) }
        ensures before { IsTrue result → take next.now.first next.now.history ≡ self.now.history }
    {
        if self.number != next.number {
            return false;
        }
        self.whole.compare(&next.whole);
        next.first >= self.first && next.first - self.first == self.kept.count() as u64
    }
}
