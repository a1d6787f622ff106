//! An index that is a sorted vector for a few keys, and a heap for more.
ghost use Rattle.std.specs.Prelude.{◌≡◌, ◌≤◌, ◌+◌, ◌-◌, ◌++◌, None, length, replicate, IfOk};
ghost use Rattle.dmc_index.specs.Index.{slot_of_key, AreApart};
ghost use Rattle.dmc_heap.specs.internal.Adaptive.{IsCopied};

use crate::indexed_heap::IndexedHeap;
use dmc_index::index::{Indexes, OrderIndex};
use dmc_index::sliding_index::SlidingIndex;
use dmc_tag::rank::{LimitRank, Rank, ReadyRank, TagRank};
use dmc_tag::tag::Tag;
use std::alloc::{AllocError, Global};
use std::marker::Model;

// The greatest capacity of a sorted vector: up to about this number it is faster than a heap.
const FEW: usize = 32;

/// The two forms of an index.
#[derive(Drop)]
enum Form<R: Rank> {
    Few(SlidingIndex<R>),
    Many(IndexedHeap<R>),
}

/// An index that is a sorted vector while its capacity is at most 32, and a heap from then on.
#[derive(Drop)]
pub struct AdaptiveIndex<R: Rank> {
    form: Form<R>,
    alloc: Global,
}

impl<R: Rank> Model for AdaptiveIndex<R> {
    ghost use Rattle.std.specs.Prelude.{List, Option};
    ghost use Rattle.dmc_heap.specs.Adaptive.{slots_in, IsSized};

    ghost Value = { List (Option R) };

    ghost view = { λ x. slots_in x.form };

    ghost invariant = { λ x. IsSized x.form };
}

/// Inserts what a list has of a key, if it has the key.
fn copy_key<R: Rank>(list: &SlidingIndex<R>, key: usize, heap: &mut IndexedHeap<R>)
    requires copied { IsCopied list.now key heap.old }
    requires in_room { length list.now ≤ length heap.old }
    requires apart { AreApart R.cmp list.now }
    ensures copied { IsCopied list.now (key + 1) heap.new }
    ensures room { length heap.new ≡ length heap.old }
{
    if let Some(rank) = list.get(key) {
        heap.insert(key, rank);
    }
}

/// A heap of this capacity with what a list has.
fn heap_of<R: Rank>(
    alloc: Global,
    list: &SlidingIndex<R>,
    n: usize,
) -> Result<IndexedHeap<R>, AllocError>
    requires few { length list.now ≤ FEW }
    requires room { length list.now ≤ n }
    ensures { IfOk result (λ heap. heap ≡ list.now ++ replicate (n - length list.now) None) }
{
    let mut heap = IndexedHeap::new(alloc);
    heap.reserve_keys(n)?;
    // It says that no two keys have one rank.
    let _ = list.len();
    for key in 0..FEW {
        copy_key(list, key, &mut heap);
    }
    Ok(heap)
}

impl<R: Rank> OrderIndex<R> for AdaptiveIndex<R> {
    ghost slots = { λ index. index };

    fn new(alloc: Global) -> AdaptiveIndex<R> {
        let form = Form::Few(SlidingIndex::new(alloc));
        AdaptiveIndex { form, alloc }
    }

    fn reserve_keys(&mut self, n: usize) -> Result<(), AllocError> {
        match &mut self.form {
            Form::Few(list) if n <= FEW => list.reserve_keys(n),
            Form::Few(list) => {
                let heap = heap_of(self.alloc, list, n)?;
                self.form = Form::Many(heap);
                Ok(())
            }
            Form::Many(heap) => heap.reserve_keys(n),
        }
    }

    fn insert(&mut self, key: usize, rank: R) {
        match &mut self.form {
            Form::Few(list) => list.insert(key, rank),
            Form::Many(heap) => heap.insert(key, rank),
        }
    }

    fn change(&mut self, key: usize, rank: R) {
        match &mut self.form {
            Form::Few(list) => list.change(key, rank),
            Form::Many(heap) => heap.change(key, rank),
        }
    }

    fn remove(&mut self, key: usize) -> R {
        match &mut self.form {
            Form::Few(list) => list.remove(key),
            Form::Many(heap) => heap.remove(key),
        }
    }

    fn get(&self, key: usize) -> Option<R> {
        match &self.form {
            Form::Few(list) => list.get(key),
            Form::Many(heap) => heap.get(key),
        }
    }

    fn least(&self) -> Option<(usize, R)> {
        match &self.form {
            Form::Few(list) => list.least(),
            Form::Many(heap) => heap.least(),
        }
    }

    fn map_ranks<F: Fn(R) -> R>(&mut self, f: F) {
        match &mut self.form {
            Form::Few(list) => list.map_ranks(f),
            Form::Many(heap) => heap.map_ranks(f),
        }
    }

    fn len(&self) -> usize {
        match &self.form {
            Form::Few(list) => list.len(),
            Form::Many(heap) => heap.len(),
        }
    }
}

/// The three indexes of a queue: sorted vectors while at most 32 clients are registered, and heaps from then on.
#[derive(Drop)]
pub struct HeapIndexes;

impl<T: Tag> Indexes<T> for HeapIndexes {
    type ReservationIndex = AdaptiveIndex<TagRank<T>>;

    type LimitIndex = AdaptiveIndex<LimitRank<T>>;

    type WeightIndex = AdaptiveIndex<ReadyRank<T>>;
}
