//! What an index over ranks promises.
ghost use Rattle.std.specs.Prelude.{◌≡◌, ℕ, ◌-◌, ◌≤◌, ◌<◌, ◌++◌, ◌==◌, List, [], Option, Some, None, MatchOption, OnOk, OnErr, IsOk, IsSome, length, replicate, count_by, is_some, slice_set};
ghost use Rattle.dmc_index.specs.Index.{slot_of_key, IsEmpty, IsApart, IsApartFromOthers, AreApart, IsLeast, KeepsOrder, IsMapped};

use dmc_tag::rank::{LimitRank, Rank, ReadyRank, TagRank};
use dmc_tag::tag::Tag;
use std::alloc::{AllocError, Global};

/// A finite map from keys to distinct ranks, with a capacity: the keys below it may have ranks. No call but `reserve_keys`
/// allocates.
pub trait OrderIndex<R: Rank>: Drop {
    /// What each key below the capacity holds.
    ghost slots: { Self → List (Option R) };

    /// An empty index of capacity 0.
    fn new(alloc: Global) -> Self
        ensures { slots result ≡ [] };

    /// Raises the capacity to `n`, for the keys below it. It never falls.
    fn reserve_keys(&mut self, n: usize) -> Result<(), AllocError>
        ensures ok { OnOk result (slots self.new ≡ slots self.old ++ replicate (n - length (slots self.old)) None) }
        ensures err { OnErr result (slots self.new ≡ slots self.old) }
        ensures succeeds { n ≤ length (slots self.old) → IsOk result };

    /// Gives a rank to a key that has none.
    fn insert(&mut self, key: usize, rank: R)
        requires in_room { key < length (slots self.old) }
        requires vacant { slot_of_key (slots self.old) key ≡ None }
        requires apart { IsApart R.cmp (slots self.old) rank }
        ensures { slots self.new ≡ slice_set (slots self.old) key (Some rank) };

    /// Gives a key another rank.
    fn change(&mut self, key: usize, rank: R)
        requires here { IsSome (slot_of_key (slots self.old) key) }
        requires apart { IsApartFromOthers R.cmp (slots self.old) key rank }
        ensures { slots self.new ≡ slice_set (slots self.old) key (Some rank) };

    /// Removes a key, and returns the rank that it had.
    fn remove(&mut self, key: usize) -> R
        requires { IsSome (slot_of_key (slots self.old) key) }
        ensures value { slot_of_key (slots self.old) key ≡ Some result }
        ensures rest { slots self.new ≡ slice_set (slots self.old) key None };

    /// The rank of a key, if it has one.
    fn get(&self, key: usize) -> Option<R>
        ensures { result ≡ slot_of_key (slots self.now) key };

    /// The key whose rank is below all others, and that rank.
    fn least(&self) -> Option<(usize, R)>
        ensures { MatchOption result (IsEmpty (slots self.now)) (λ p. IsLeast R.cmp (slots self.now) p.0 p.1) };

    /// Maps every rank by `f`, which keeps their order. The keys stay.
    fn map_ranks<F: Fn(R) -> R>(&mut self, f: F)
        requires callable { (key : ℕ) (rank : R) → slot_of_key (slots self.old) key ≡ Some rank → F.pre f rank }
        requires ordered { KeepsOrder R.cmp (slots self.old) (F.post f) }
        ensures { IsMapped (F.post f) (slots self.old) (slots self.new) };

    /// How many keys have a rank.
    fn len(&self) -> usize
        ensures value { result ≡ count_by is_some (slots self.now) }
        ensures distinct { AreApart R.cmp (slots self.now) };

    /// Whether no key has a rank.
    fn is_empty(&self) -> bool
        ensures { result ≡ (count_by is_some (slots self.now) == 0) }
    {
        self.len() == 0
    }
}

/// Names the three indexes of a queue.
pub trait Indexes<T: Tag> {
    /// By reservation tag.
    type ReservationIndex: OrderIndex<TagRank<T>>;

    /// By limit tag, unready ones first.
    type LimitIndex: OrderIndex<LimitRank<T>>;

    /// By weight tag, ready ones first.
    type WeightIndex: OrderIndex<ReadyRank<T>>;
}
