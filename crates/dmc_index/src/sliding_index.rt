//! An index as a sorted vector whose least entry is taken off without moving the others.
ghost use Rattle.std.specs.Prelude.{◌≡◌, ◌-◌, ◌<◌, ◌≤◌, drop, length, slice_index_or, vec_capacity, vec_len};
ghost use Rattle.dmc_index.specs.declared.list_index.Entry.{Entry};
ghost use Rattle.dmc_index.specs.internal.Sliding.{IsMovedToFront, IsPlaced, IsTakenOut};

use crate::index::OrderIndex;
use crate::list_index::{Entry, map_entries, place_of};
use dmc_tag::rank::Rank;
use std::alloc::{AllocError, Global};
use std::marker::Model;

/// An index as a vector, with the least rank first. What is removed leaves a gap at the front, so a key near the front is removed
/// in a few steps, and a rank that is above most others is inserted in as few.
#[derive(Drop)]
pub struct SlidingIndex<R: Rank> {
    // The entries before `start` are no longer there.
    entries: Vec<Entry<R>>,
    start: usize,
    room: usize,
}

impl<R: Rank> Model for SlidingIndex<R> {
    ghost use Rattle.std.specs.Prelude.{◌≤◌, List, Option, drop, length, vec_capacity};
    ghost use Rattle.dmc_index.specs.Entries.{slots_of, IsSound};

    ghost Value = { List (Option R) };

    ghost view = { λ x. slots_of x.room (drop x.start x.entries.items) };

    ghost invariant = { λ x. IsSound R.cmp x.room (vec_capacity x.entries) (drop x.start x.entries.items) × (x.start ≤ length x.entries.items) };
}

// Moves the last entry down past each rank above its own, as far as `start`. Returns its index.
#[inline(always)]
fn place_last<R: Rank>(entries: &mut [Entry<R>], start: usize, entry: Entry<R>) -> usize
    requires some { start < length entries.old }
    requires last { (d : Entry R) → slice_index_or entries.old (length entries.old - 1) d ≡ entry }
    ensures { IsPlaced R.cmp start entries.old entry result entries.new }
{
    let mut at = entries.len() - 1;
    while at > start {
        let below = entries[at - 1];
        if !entry.rank.is_below(&below.rank) {
            break;
        }
        entries[at] = below;
        at -= 1;
    }
    if at < entries.len() - 1 {
        entries[at] = entry;
    }
    at
}

// Takes out the entry at an index: those from `start` to it move up by one.
fn take_out<R: Copy>(entries: &mut [Entry<R>], start: usize, at: usize) -> Entry<R>
    requires start { start ≤ at }
    requires within { at < length entries.old }
    ensures { IsTakenOut start entries.old at result entries.new }
{
    let taken = entries[at];
    let mut hole = at;
    while hole > start {
        entries[hole] = entries[hole - 1];
        hole -= 1;
    }
    taken
}

// Moves the entries from an index on to the front.
fn move_to_front<R: Copy>(entries: &mut [Entry<R>], start: usize)
    requires { start ≤ length entries.old }
    ensures { IsMovedToFront start entries.old entries.new }
{
    for i in start..entries.len() {
        entries[i - start] = entries[i];
    }
}

// Drops what is before an index.
#[inline(never)]
fn close_gap<R: Copy>(entries: &mut Vec<Entry<R>>, start: usize)
    requires { start ≤ length entries.old.items }
    ensures items { entries.new.items ≡ drop start entries.old.items }
    ensures capacity { vec_capacity entries.new ≡ vec_capacity entries.old }
{
    let live = entries.len() - start;
    move_to_front(entries, start);
    entries.truncate(live);
}

// Makes room for one entry more. Returns from where on the entries are there.
fn make_room<R: Copy>(entries: &mut Vec<Entry<R>>, start: usize) -> usize
    requires started { start ≤ length entries.old.items }
    requires few { length entries.old.items - start < vec_capacity entries.old }
    ensures same { drop result entries.new.items ≡ drop start entries.old.items }
    ensures started { result ≤ length entries.new.items }
    ensures room { vec_len entries.new < vec_capacity entries.new }
    ensures capacity { vec_capacity entries.new ≡ vec_capacity entries.old }
{
    if entries.len() < entries.capacity() {
        return start;
    }
    close_gap(entries, start);
    0
}

impl<R: Rank> OrderIndex<R> for SlidingIndex<R> {
    ghost slots = { λ index. index };

    fn new(alloc: Global) -> SlidingIndex<R> {
        SlidingIndex {
            entries: Vec::new(alloc),
            start: 0,
            room: 0,
        }
    }

    fn reserve_keys(&mut self, n: usize) -> Result<(), AllocError> {
        if n > self.room {
            close_gap(&mut self.entries, self.start);
            self.start = 0;
            // Twice as many, so that a gap is seldom closed.
            self.entries
                .reserve(n.saturating_mul(2) - self.entries.len())?;
            self.room = n;
        }
        Ok(())
    }

    #[inline(always)]
    fn insert(&mut self, key: usize, rank: R) {
        self.start = make_room(&mut self.entries, self.start);
        let entry = Entry { rank, key };
        self.entries.push_reserved(entry);
        place_last(&mut self.entries, self.start, entry);
    }

    fn change(&mut self, key: usize, rank: R) {
        self.remove(key);
        self.insert(key, rank);
    }

    fn remove(&mut self, key: usize) -> R {
        let start = self.start;
        let at = place_of(&self.entries[start..], key).unwrap();
        let taken = take_out(&mut self.entries, start, start + at);
        self.start = start + 1;
        taken.rank
    }

    fn get(&self, key: usize) -> Option<R> {
        let at = place_of(&self.entries[self.start..], key)?;
        Some(self.entries[self.start + at].rank)
    }

    fn least(&self) -> Option<(usize, R)> {
        let first = self.entries.get(self.start)?;
        Some((first.key, first.rank))
    }

    fn map_ranks<F: Fn(R) -> R>(&mut self, f: F) {
        close_gap(&mut self.entries, self.start);
        self.start = 0;
        map_entries(&mut self.entries, f);
    }

    fn len(&self) -> usize {
        self.entries.len() - self.start
    }
}
