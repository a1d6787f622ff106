//! An index as a sorted vector. Each change moves what is behind it, so it suits a few keys, and tests.
ghost use Rattle.std.specs.Prelude.{◌≡◌, ◌≢◌, ◌-◌, ◌≤◌, ◌<◌, ◌==◌, position, length, ⊤};
ghost use Rattle.std.specs.List.Sorted.{IsPartitionPoint};
ghost use Rattle.std.specs.declared.cmp.Ordering.TheVariants.{Less};
ghost use Rattle.std.specs.List.{All};
ghost use Rattle.dmc_index.specs.Entries.{IsRising};
ghost use Rattle.dmc_index.specs.internal.Entries.{MapsEntries};

use crate::index::{Indexes, OrderIndex};
use dmc_tag::rank::{LimitRank, Rank, ReadyRank, TagRank};
use dmc_tag::tag::Tag;
use std::alloc::{AllocError, Global};
use std::marker::Model;

/// A key and its rank.
#[derive(Copy)]
pub(crate) struct Entry<R> {
    pub(crate) rank: R,
    pub(crate) key: usize,
}

impl<R: Copy> Clone for Entry<R> {
    ghost is_clone = { λ x y. y ≡ x };

    ghost is_infallible = { λ _. ⊤ };

    fn clone(&self) -> Result<Entry<R>, AllocError> {
        Ok(*self)
    }
}

/// An index as a vector, with the least rank first.
#[derive(Drop)]
pub struct ListIndex<R: Rank> {
    entries: Vec<Entry<R>>,
    room: usize,
}

impl<R: Rank> Model for ListIndex<R> {
    ghost use Rattle.std.specs.Prelude.{List, Option, vec_capacity};
    ghost use Rattle.dmc_index.specs.Entries.{slots_of, IsSound};

    ghost Value = { List (Option R) };

    ghost view = { λ x. slots_of x.room x.entries.items };

    ghost invariant = { λ x. IsSound R.cmp x.room (vec_capacity x.entries) x.entries.items };
}

// The index of a key.
pub(crate) fn place_of<R>(entries: &[Entry<R>], key: usize) -> Option<usize>
    ensures { result ≡ position (λ entry. entry.key == key) entries.now }
{
    entries.iter().position(|entry| entry.key == key)
}

// How many ranks are below this one.
fn place_for<R: Rank>(entries: &[Entry<R>], rank: R) -> usize
    requires { IsRising R.cmp entries.now }
    ensures bound { result ≤ length entries.now }
    ensures parts { IsPartitionPoint (λ entry. R.cmp entry.rank rank ≡ Less) (λ entry. R.cmp entry.rank rank ≢ Less) entries.now result }
{
    entries.partition_point(|entry| entry.rank.is_below(&rank))
}

// Maps each rank.
pub(crate) fn map_entries<R: Rank, F: Fn(R) -> R>(entries: &mut [Entry<R>], f: F)
    requires { All (λ entry. F.pre f entry.rank) entries.old }
    ensures { MapsEntries (F.post f) entries.old entries.new }
{
    for entry in entries.iter_mut() {
        entry.rank = f(entry.rank);
    }
}

impl<R: Rank> OrderIndex<R> for ListIndex<R> {
    ghost slots = { λ index. index };

    fn new(alloc: Global) -> ListIndex<R> {
        ListIndex {
            entries: Vec::new(alloc),
            room: 0,
        }
    }

    fn reserve_keys(&mut self, n: usize) -> Result<(), AllocError> {
        if n > self.room {
            self.entries.reserve(n - self.entries.len())?;
            self.room = n;
        }
        Ok(())
    }

    fn insert(&mut self, key: usize, rank: R) {
        let at = place_for(&self.entries, rank);
        self.entries.insert(at, Entry { rank, key }).unwrap();
    }

    fn change(&mut self, key: usize, rank: R) {
        self.remove(key);
        self.insert(key, rank);
    }

    fn remove(&mut self, key: usize) -> R {
        let at = place_of(&self.entries, key).unwrap();
        self.entries.remove(at).rank
    }

    fn get(&self, key: usize) -> Option<R> {
        let at = place_of(&self.entries, key)?;
        Some(self.entries[at].rank)
    }

    fn least(&self) -> Option<(usize, R)> {
        let first = self.entries.first()?;
        Some((first.key, first.rank))
    }

    fn map_ranks<F: Fn(R) -> R>(&mut self, f: F) {
        map_entries(&mut self.entries, f);
    }

    fn len(&self) -> usize {
        self.entries.len()
    }
}

/// The three indexes of a queue as sorted vectors.
#[derive(Drop)]
pub struct ListIndexes;

impl<T: Tag> Indexes<T> for ListIndexes {
    type ReservationIndex = ListIndex<TagRank<T>>;

    type LimitIndex = ListIndex<LimitRank<T>>;

    type WeightIndex = ListIndex<ReadyRank<T>>;
}
