//! A list that is kept for long: what was recorded is released from time to time, in segments.
ghost use Rattle.std.specs.Prelude.{◌≡◌, ◌↔◌, ◌+◌, ◌-◌, ◌<◌, ◌≤◌, [], ◌∷◌, ◌++◌, drop, length, IfNone, IfSome, IsErrOf, IsSome, IsTrue, OnOk};
ghost use Rattle.dmc_types.specs.Limits.{max_events};
ghost use Rattle.dmc_history.specs.Log.{FillBlocks};
ghost use Rattle.dmc_shared.specs.Segmented.{MayRotate, after_rotating, ending_of, max_released};

use crate::kept::{KeptList, Takes};
use crate::segment::ListSegment;
use dmc_history::ReserveFault;
use dmc_ledger::growing::GrowingList;
use dmc_ledger::setup::Setup;
use std::marker::Model;
use std::mem::replace;

/// The most records after which a segment is still released.
const MAX_RELEASED: u64 = 1 << 62;

/// A list of records that only grows. The first of them may have been released, in segments, and at most `most` (1 to 2^30)
/// are kept. Contracts see all records, and how many of them were released.
///
/// Its segments carry the number of a list of the set-up that only grows, by which they know each other.
#[derive(Drop)]
pub struct SegmentedList<L: KeptList, S: Setup> {
    number: u32,
    released: GrowingList<L, S>,
    first: u64,
    kept: L,
    // Whether the records were taken out for good.
    taken: bool,
}

impl<L: KeptList, S: Setup> Model for SegmentedList<L, S> {
    ghost use Rattle.std.specs.Prelude.{◌≡◌, ◌+◌, ◌++◌};
    ghost use Rattle.dmc_shared.specs.Segmented.{IsSegmented, Segmented, events_unless, max_unless};

    ghost Value = { Segmented L.Record };

    ghost view = { λ h. record {
      number = h.number;
      events = events_unless L.log h.taken h.released.list ++ (L.log h.kept).events;
      first = h.first;
      most = h.first + max_unless h.taken (L.log h.kept).most;
      room = (L.log h.kept).room;
    } };

    ghost invariant = { λ h. (h.released.number ≡ h.number) × IsSegmented L.log h.taken h.released.list h.first h.kept };
}

impl<L: KeptList, S: Setup> SegmentedList<L, S> {
    /// A list that keeps its records in this one, which is empty, under the number of a list of the set-up.
    pub fn new(number: u32, list: GrowingList<L, S>, kept: L) -> SegmentedList<L, S>
        requires number { list.number ≡ number }
        requires nothing { list.list ≡ [] }
        requires empty { (L.log kept).events ≡ [] }
        requires some { 0 < (L.log kept).most }
        requires limit { (L.log kept).most ≤ max_events }
        ensures { result ≡ record { number = number; events = []; first = 0; most = (L.log kept).most; room = (L.log kept).room } }
    {
        SegmentedList {
            number,
            released: list,
            first: 0,
            kept,
            taken: false,
        }
    }

    /// How many records were released, which is the number of the first that is kept.
    pub fn first(&self) -> u64
        ensures value { result ≡ self.now.first }
        ensures within { result ≤ length self.now.events }
        ensures few { result ≤ max_released }
    {
        self.first
    }

    /// The records that are kept.
    pub fn kept(&self) -> &L
        ensures { (L.log result.now).events ≡ drop self.now.first self.now.events }
    {
        &self.kept
    }

    /// How many records it has, released or not: no more than there may be.
    pub fn len(&self) -> u64
        ensures value { result ≡ length self.now.events }
        ensures within { result ≤ self.now.most }
        ensures few { self.now.first ≤ max_released }
        ensures limit { self.now.most ≤ self.now.first + max_events }
    {
        self.kept.count() as u64 + self.first
    }

    /// Reserves a place, which the next push uses: refused `HistoryFull` exactly if it keeps its `most` records, or was taken
    /// out, then `Memory` if the allocator refused a growth. A place that is reserved already serves again. So `Memory`
    /// comes only if the records that are kept fill their blocks of 1,024.
    pub fn reserve_one(&mut self) -> Result<(), ReserveFault>
        ensures ok { OnOk result (0 < self.new.room) }
        ensures fewer { OnOk result (length self.old.events < self.old.most) }
        ensures full { IsErrOf result ReserveFault.HistoryFull ↔ (length self.old.events ≡ self.old.most) }
        ensures memory { IsErrOf result ReserveFault.Memory → FillBlocks (length self.old.events - self.old.first) }
        ensures kept { self.new ≡ record self.old { room = self.new.room } }
    {
        if self.taken {
            return Err(ReserveFault::HistoryFull);
        }
        self.kept.reserve_place()
    }

    /// Puts a record at the end, in a reserved place.
    #[inline(always)]
    pub fn push_reserved<P>(&mut self, next: P)
    where
        L: Takes<P>,
        requires { 0 < self.old.room }
        ensures events { self.new.events ≡ self.old.events ++ L.taken next ∷ [] }
        ensures number { self.new.number ≡ self.old.number }
        ensures first { self.new.first ≡ self.old.first }
        ensures most { self.new.most ≡ self.old.most }
        ensures used { self.new.room + 1 ≡ self.old.room }
    {
        self.kept.put(next);
    }

    /// Releases the records that are kept. It does not allocate. `None`, and nothing changes, if it has more than 2^62
    /// records or was taken out.
    pub fn rotate(&mut self) -> Option<ListSegment<L, S>>
        ensures segment { IfSome result (λ segment. segment ≡ ending_of self.old) }
        ensures some { IsSome result ↔ MayRotate self.old }
        ensures rotated { IfSome result (λ _. self.new ≡ after_rotating self.old (self.old.most - self.old.first)) }
        ensures within { self.old.first ≤ length self.old.events }
        ensures kept { IfNone result (self.new ≡ self.old) }
    {
        let end = self.len();
        if self.taken || end > MAX_RELEASED {
            return None;
        }
        let whole = self.released.push(&self.kept);
        let first = replace(&mut self.first, end);
        Some(ListSegment::new(self.number, whole, first, self.kept.take_all()))
    }

    /// Takes out the records that are kept, for good: the list has then no record, and can keep none. It does not allocate.
    pub fn take(&mut self) -> L
        ensures events { (L.log result).events ≡ drop self.old.first self.old.events }
        ensures few { length (L.log result).events ≤ max_events }
        ensures taken { self.new ≡ record { number = self.old.number; events = []; first = 0; most = 0; room = 0 } }
    {
        (self.taken, self.first) = (true, 0);
        self.kept.take_all()
    }
}
