//! An index as a heap that also stores the heap index of each key.
ghost use Rattle.std.specs.Prelude.{◌≡◌, ◌≢◌, ◌<◌, ◌≤◌, ◌+◌, ◌*◌, length, slice_set, ⊤};
ghost use Rattle.std.specs.List.{All};
ghost use Rattle.dmc_heap.specs.declared.indexed_heap.Entry.{Entry};
ghost use Rattle.dmc_heap.specs.internal.Heap.{IsHole, IsMoved, IsUnderParent, IsOverChildren, IsLowerOf, IsLowest, IsLowestChild, IsSettled, MapsEntries};

use dmc_index::index::OrderIndex;
use dmc_tag::rank::Rank;
use std::alloc::{AllocError, Global};
use std::marker::Model;

/// A key and its rank.
#[derive(Copy)]
struct Entry<R> {
    rank: R,
    key: usize,
}

impl<R: Copy> Clone for Entry<R> {
    ghost is_clone = { λ x y. y ≡ x };

    ghost is_infallible = { λ _. ⊤ };

    fn clone(&self) -> Result<Entry<R>, AllocError> {
        Ok(*self)
    }
}

// How many children an entry has at most.
const CHILDREN: usize = 4;

// The heap index of a key that is not in the heap. No heap is so large.
const VACANT: usize = usize::MAX;

/// An index as a heap in which each entry has up to four children. The least rank takes O(1); the other changes take a number of
/// steps that is logarithmic in the number of keys.
#[derive(Drop)]
pub struct IndexedHeap<R: Rank> {
    // No rank is above those of the children, which for index i are at 4i + 1 to 4i + 4.
    heap: Vec<Entry<R>>,
    // Each key's index in the heap.
    places: Vec<usize>,
}

impl<R: Rank> Model for IndexedHeap<R> {
    ghost use Rattle.std.specs.Prelude.{List, Option, vec_capacity};
    ghost use Rattle.dmc_heap.specs.Heap.{slots_of, IsSound};

    ghost Value = { List (Option R) };

    ghost view = { λ x. slots_of x.heap.items x.places.items };

    ghost invariant = { λ x. IsSound R.cmp (vec_capacity x.heap) x.heap.items x.places.items };
}

// Puts an entry at an index, and stores the index at the entry's key.
fn put<R: Copy>(heap: &mut [Entry<R>], places: &mut [usize], at: usize, entry: Entry<R>)
    requires in_heap { at < length heap.old }
    requires in_room { entry.key < length places.old }
    ensures heap { heap.new ≡ slice_set heap.old at entry }
    ensures places { places.new ≡ slice_set places.old entry.key at }
{
    heap[at] = entry;
    places[entry.key] = at;
}

// Moves the hole for an entry up, past each rank above the entry's.
fn rise<R: Rank>(
    heap: &mut [Entry<R>],
    places: &mut [usize],
    mut at: usize,
    entry: Entry<R>,
) -> usize
    requires { IsHole R.cmp heap.old places.old at entry }
    ensures hole { IsHole R.cmp heap.new places.new result entry }
    ensures moved { IsMoved heap.old places.old at entry heap.new places.new result }
    ensures under_parent { IsUnderParent R.cmp heap.new result entry }
    ensures over_children { result ≢ at → IsOverChildren R.cmp heap.new result entry }
{
    while at > 0 {
        let parent = (at - 1) / CHILDREN;
        if !entry.rank.is_below(&heap[parent].rank) {
            return at;
        }
        let above = heap[parent];
        put(heap, places, at, above);
        at = parent;
    }
    at
}

// Of two indexes the one with the lower rank.
fn lower_of<R: Rank>(heap: &[Entry<R>], a: usize, b: usize) -> usize
    requires a { a < length heap.now }
    requires b { b < length heap.now }
    ensures { IsLowerOf R.cmp heap.now a b result }
{
    if heap[b].rank.is_below(&heap[a].rank) {
        return b;
    }
    a
}

// The index with the lowest rank of the last ones, of which there are at most three.
fn lowest_of_few<R: Rank>(heap: &[Entry<R>], first: usize) -> usize
    requires some { first < length heap.now }
    requires few { length heap.now ≤ first + 3 }
    ensures { IsLowest R.cmp heap.now first (length heap.now) result }
{
    let second = first + 1;
    let third = first + 2;
    if third < heap.len() {
        let left = lower_of(heap, first, second);
        return lower_of(heap, left, third);
    }
    if second < heap.len() {
        return lower_of(heap, first, second);
    }
    first
}

// The child with the lowest rank. Two pairs of four are compared first, so that no comparison waits for the one before.
fn lowest_child<R: Rank>(heap: &[Entry<R>], at: usize) -> usize
    requires { CHILDREN * at + 1 < length heap.now }
    ensures { IsLowestChild R.cmp heap.now at result }
{
    let first = CHILDREN * at + 1;
    let last = first + 3;
    if last < heap.len() {
        let left = lower_of(heap, first, first + 1);
        let right = lower_of(heap, first + 2, last);
        return lower_of(heap, left, right);
    }
    lowest_of_few(heap, first)
}

// Moves a hole down to a leaf, past the child with the lowest rank each time. Whichever entry the hole is for, it is for that one
// still.
fn descend<R: Rank>(heap: &mut [Entry<R>], places: &mut [usize], mut at: usize) -> usize
    requires { (entry : Entry R) × IsHole R.cmp heap.old places.old at entry }
    ensures hole { (entry : Entry R) → IsHole R.cmp heap.old places.old at entry → IsHole R.cmp heap.new places.new result entry }
    ensures moved { (entry : Entry R) → IsHole R.cmp heap.old places.old at entry → IsMoved heap.old places.old at entry heap.new places.new result }
    ensures leaf { length heap.new ≤ CHILDREN * result + 1 }
{
    let leaves = (heap.len() + CHILDREN - 2) / CHILDREN;
    while at < leaves {
        let child = lowest_child(heap, at);
        let lower = heap[child];
        put(heap, places, at, lower);
        at = child;
    }
    at
}

// Moves the hole for an entry to where the entry belongs, and fills it: down to a leaf, and then up (as in bottom-up heapsort).
// Such an entry mostly belongs far down, so this takes about half as many comparisons as a search from the hole on.
fn settle<R: Rank>(heap: &mut [Entry<R>], places: &mut [usize], at: usize, entry: Entry<R>)
    requires { IsHole R.cmp heap.old places.old at entry }
    ensures { IsSettled R.cmp heap.old places.old at entry heap.new places.new }
{
    let leaf = descend(heap, places, at);
    let place = rise(heap, places, leaf, entry);
    put(heap, places, place, entry);
}

// Fills the hole at a leaf with the entry, once it was moved up as far as the entry belongs.
fn settle_leaf<R: Rank>(heap: &mut [Entry<R>], places: &mut [usize], at: usize, entry: Entry<R>)
    requires hole { IsHole R.cmp heap.old places.old at entry }
    requires leaf { length heap.old ≤ CHILDREN * at + 1 }
    ensures { IsSettled R.cmp heap.old places.old at entry heap.new places.new }
{
    let place = rise(heap, places, at, entry);
    put(heap, places, place, entry);
}

// Maps each rank.
fn map_entries<R: Rank, F: Fn(R) -> R>(entries: &mut [Entry<R>], f: F)
    requires { All (λ entry. F.pre f entry.rank) entries.old }
    ensures { MapsEntries (F.post f) entries.old entries.new }
{
    for entry in entries.iter_mut() {
        entry.rank = f(entry.rank);
    }
}

impl<R: Rank> OrderIndex<R> for IndexedHeap<R> {
    ghost slots = { λ index. index };

    fn new(alloc: Global) -> IndexedHeap<R> {
        IndexedHeap {
            heap: Vec::new(alloc),
            places: Vec::new(alloc),
        }
    }

    fn reserve_keys(&mut self, n: usize) -> Result<(), AllocError> {
        if n > self.places.len() {
            self.heap.reserve(n - self.heap.len())?;
            self.places.resize(n, VACANT)?;
        }
        Ok(())
    }

    fn insert(&mut self, key: usize, rank: R) {
        let at = self.heap.len();
        let entry = Entry { rank, key };
        self.heap.push(entry).unwrap();
        settle_leaf(&mut self.heap, &mut self.places, at, entry);
    }

    fn change(&mut self, key: usize, rank: R) {
        let at = self.places[key];
        settle(&mut self.heap, &mut self.places, at, Entry { rank, key });
    }

    fn remove(&mut self, key: usize) -> R {
        let at = self.places[key];
        let removed = self.heap[at];
        let last = self.heap.pop().unwrap();
        self.places[key] = VACANT;
        if at < self.heap.len() {
            settle(&mut self.heap, &mut self.places, at, last);
        }
        removed.rank
    }

    fn get(&self, key: usize) -> Option<R> {
        let place = *self.places.get(key)?;
        let entry = self.heap.get(place)?;
        Some(entry.rank)
    }

    fn least(&self) -> Option<(usize, R)> {
        let first = self.heap.first()?;
        Some((first.key, first.rank))
    }

    fn map_ranks<F: Fn(R) -> R>(&mut self, f: F) {
        map_entries(&mut self.heap, f);
    }

    fn len(&self) -> usize {
        self.heap.len()
    }
}
