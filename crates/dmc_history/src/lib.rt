//! A history: a list of events that only grows, stored in blocks of 1,024, so that a growth copies no event.
#![tactic(auto)]

ghost use Rattle.std.specs.Prelude.{◌≡◌, ◌↔◌, ◌+◌, ◌-◌, ◌<◌, ◌≤◌, [], ◌∷◌, ◌++◌, length, IsTrue, OnOk, OnErr, IsErrOf, IsOk, min, option_copied, slice_get, vec_capacity};
ghost use Rattle.std.specs.Global.{Vec};
ghost use Rattle.dmc_types.specs.Limits.{max_events};
ghost use Rattle.dmc_history.specs.Log.{EndSlots, FillBlocks, block_size};

pub use dmc_tag::event::Event;
use dmc_types::limits::MAX_EVENTS;
use std::alloc::{AllocError, Global};
use std::marker::Model;
use std::mem::replace;
use thiserror::Error;

/// The number of slots in a block.
pub const BLOCK: usize = 1024;

/// A history that could not be made: `most` was not 1 to 2^30.
#[derive(Clone, Copy, Debug, PartialEq, Eq, Error)]
pub enum LimitFault {
    #[error("the most events are not 1 to 2^30")]
    Limit,
}

/// The reason why no slot was reserved. The history is as it was.
#[derive(Clone, Copy, Debug, PartialEq, Eq, Error)]
pub enum ReserveFault {
    /// It has its `most` events.
    #[error("the history is full")]
    HistoryFull,
    /// An allocation failed.
    #[error("out of memory")]
    Memory,
}

impl From<AllocError> for ReserveFault {
    ghost use Rattle.dmc_history.specs.declared.ReserveFault.TheVariants.{Memory};

    ghost from_gives = { λ _ e. e ≡ Memory };

    fn from(_error: AllocError) -> ReserveFault {
        ReserveFault::Memory
    }
}

/// A list of at most `most` events (1 to 2^30), oldest first.
///
/// An event is added by two calls: `reserve_one`, which may allocate, and `push_reserved`, which does not. Each push uses one
/// reserved slot. Contracts see the events, `most`, and how many slots are reserved.
#[derive(Drop)]
pub struct History<E> {
    alloc: Global,
    blocks: Vec<Vec<E>>,
    len: usize,
    most: u32,
}

impl<E> Model for History<E> {
    ghost use Rattle.dmc_history.specs.Log.{Log};

    ghost Value = { Log E };

    ghost use Rattle.dmc_history.specs.Blocks.{events_of, room_of, AreFilled, AreLimits};

    ghost view = { λ h. record {
      events = events_of h.blocks.items;
      most = h.most;
      room = room_of h.blocks.items h.len h.most;
    } };

    ghost invariant = { λ h. AreFilled h.blocks.items h.len × AreLimits h.len h.most };
}

impl<E: Drop> History<E> {
    /// An empty history of at most `most` events. It does not allocate, and is refused `Limit` if `most` is not 1 to 2^30.
    pub fn new(alloc: Global, most: u32) -> Result<History<E>, LimitFault>
        ensures ok { (0 < most) × (most ≤ max_events) → result ≡ Ok (record { events = []; most = most; room = 0 }) }
        ensures refused { ((0 < most) × (most ≤ max_events) → ⊥) → result ≡ Err LimitFault.Limit }
    {
        if most < 1 || most > MAX_EVENTS {
            return Err(LimitFault::Limit);
        }
        Ok(History {
            alloc,
            blocks: Vec::new(alloc),
            len: 0,
            most,
        })
    }

    /// The number of events.
    pub fn len(&self) -> usize
        ensures value { result ≡ length self.now.events }
        ensures bound { result + self.now.room ≤ self.now.most }
    {
        self.len
    }

    /// Whether it has no event.
    pub fn is_empty(&self) -> bool
        ensures { IsTrue result ↔ (self.now.events ≡ []) }
    {
        self.len == 0
    }

    /// How many events it may have.
    pub fn most(&self) -> u32
        ensures value { result ≡ self.now.most }
        ensures some { 0 < result }
        ensures limit { result ≤ max_events }
    {
        self.most
    }

    /// The number of reserved slots. They end with a block, or if the history has its `most` events.
    pub fn room(&self) -> usize
        ensures value { result ≡ self.now.room }
        ensures bound { length self.now.events + result ≤ self.now.most }
        ensures whole { EndSlots (length self.now.events + result) self.now.most }
    {
        let places = self.blocks.len().saturating_mul(BLOCK);
        places.min(self.most as usize) - self.len
    }

    /// The event at an index, counted from 0, or `None` after the last.
    pub fn at(&self, index: usize) -> Option<&E>
        ensures { option_copied result ≡ slice_get self.now.events index }
    {
        self.blocks.get(index / BLOCK)?.get(index % BLOCK)
    }

    /// Reserves a slot, which the next push uses. It is refused `HistoryFull` exactly if the history has its `most` events,
    /// and then `Memory` if an allocation failed. A slot that is reserved already is used again, without an allocation. If
    /// none is, a whole block of slots is allocated: 1,024, or as many as the history may still have. So `Memory` comes only
    /// if the events fill their blocks.
    pub fn reserve_one(&mut self) -> Result<(), ReserveFault>
        ensures ok { OnOk result (0 < self.new.room) }
        ensures fewer { OnOk result (length self.old.events < self.old.most) }
        ensures block { OnOk result (self.old.room ≡ 0
            → self.new.room ≡ min block_size (self.old.most - length self.old.events)) }
        ensures full { IsErrOf result ReserveFault.HistoryFull ↔ (length self.old.events ≡ self.old.most) }
        ensures memory { IsErrOf result ReserveFault.Memory → FillBlocks (length self.old.events) }
        ensures reserved { 0 < self.old.room → IsOk result }

        // The events stay, whatever the result, and so does a slot that was reserved.
        ensures events { self.new.events ≡ self.old.events }
        ensures most { self.new.most ≡ self.old.most }
        ensures kept { 0 < self.old.room → self.new.room ≡ self.old.room }
        ensures err { OnErr result (self.new.room ≡ self.old.room) }
    {
        if self.len == self.most as usize {
            return Err(ReserveFault::HistoryFull);
        }
        if self.len / BLOCK == self.blocks.len() {
            add_block(self.alloc, &mut self.blocks)?;
        }
        Ok(())
    }

    /// Makes sure that `n` slots are reserved, at most a block of them, for the next `n` pushes. It is refused `HistoryFull`
    /// exactly if the history may not have `n` events more, and then `Memory` if an allocation failed. If `n` slots are
    /// reserved already, nothing is allocated; if fewer are, one block is.
    pub fn reserve(&mut self, n: usize) -> Result<(), ReserveFault>
        requires { n ≤ block_size }
        ensures ok { OnOk result (n ≤ self.new.room) }
        ensures fewer { OnOk result (length self.old.events + n ≤ self.old.most) }
        ensures block { OnOk result (self.old.room < n
            → self.new.room ≡ min (self.old.room + block_size) (self.old.most - length self.old.events)) }
        ensures full { IsErrOf result ReserveFault.HistoryFull ↔ (self.old.most < length self.old.events + n) }
        ensures reserved { n ≤ self.old.room → IsOk result }

        // The events stay, whatever the result, and so do the slots that were reserved.
        ensures events { self.new.events ≡ self.old.events }
        ensures most { self.new.most ≡ self.old.most }
        ensures kept { n ≤ self.old.room → self.new.room ≡ self.old.room }
        ensures grows { self.old.room ≤ self.new.room }
        ensures err { OnErr result (self.new.room ≡ self.old.room) }
    {
        if n > self.most as usize - self.len {
            return Err(ReserveFault::HistoryFull);
        }
        if self.room() < n {
            add_block(self.alloc, &mut self.blocks)?;
        }
        Ok(())
    }

    /// Adds an event at the end, in a reserved slot.
    #[inline(always)]
    pub fn push_reserved(&mut self, event: E)
        requires { 0 < self.old.room }
        ensures events { self.new.events ≡ self.old.events ++ event ∷ [] }
        ensures most { self.new.most ≡ self.old.most }
        ensures used { self.new.room + 1 ≡ self.old.room }
    {
        let block = &mut self.blocks[self.len / BLOCK];
        block.push_reserved(event);
        self.len += 1;
    }

    /// Takes out all events, and with them the reserved slots. It does not allocate.
    pub fn take(&mut self) -> History<E>
        ensures value { result ≡ self.old }
        ensures within { length result.events ≤ result.most }
        ensures limit { result.most ≤ max_events }
        ensures empty { self.new ≡ record { events = []; most = self.old.most; room = 0 } }
    {
        let empty = History {
            alloc: self.alloc,
            blocks: Vec::new(self.alloc),
            len: 0,
            most: self.most,
        };
        replace(self, empty)
    }
}

// Adds an empty block at the end.
fn add_block<E: Drop>(alloc: Global, blocks: &mut Vec<Vec<E>>) -> Result<(), AllocError>
    ensures ok { OnOk result
        ((b : Vec E) × (blocks.new.items ≡ blocks.old.items ++ b ∷ []) × (b.items ≡ []) × (block_size ≤ vec_capacity b)) }
    ensures err { OnErr result (blocks.new.items ≡ blocks.old.items) }
{
    let block = Vec::with_capacity(alloc, BLOCK)?;
    blocks.push(block)?;
    Ok(())
}
