//! An index that stores ranks in a form of fewer bytes.
ghost use Rattle.std.specs.Prelude.{◌≡◌, map};
ghost use Rattle.std.specs.Option.{option_map};

use crate::adaptive_index::AdaptiveIndex;
use dmc_index::index::OrderIndex;
use dmc_tag::rank::{PackedRank, Rank};
use std::alloc::{AllocError, Global};
use std::marker::PhantomData;

/// An index over ranks that are packed when they come in, and unpacked when they go out.
#[derive(Drop)]
pub struct PackedIndex<R: Rank, P: PackedRank<R>> {
    packed: AdaptiveIndex<P>,
    marker: PhantomData<R>,
}

impl<R: Rank, P: PackedRank<R>> OrderIndex<R> for PackedIndex<R, P> {
    ghost slots = { λ index. map (option_map P.rank_of) index.packed };

    fn new(alloc: Global) -> PackedIndex<R, P> {
        PackedIndex {
            packed: AdaptiveIndex::new(alloc),
            marker: PhantomData,
        }
    }

    fn reserve_keys(&mut self, n: usize) -> Result<(), AllocError> {
        self.packed.reserve_keys(n)
    }

    fn insert(&mut self, key: usize, rank: R) {
        self.packed.insert(key, P::pack(rank));
    }

    fn change(&mut self, key: usize, rank: R) {
        self.packed.change(key, P::pack(rank));
    }

    fn remove(&mut self, key: usize) -> R {
        self.packed.remove(key).rank()
    }

    fn get(&self, key: usize) -> Option<R> {
        let packed = self.packed.get(key)?;
        Some(packed.rank())
    }

    fn least(&self) -> Option<(usize, R)> {
        let (key, packed) = self.packed.least()?;
        Some((key, packed.rank()))
    }

    fn map_ranks<F: Fn(R) -> R>(&mut self, f: F) {
        self.packed.map_ranks(
            |packed: P| -> P
                requires { F.pre f (P.rank_of packed) }
                ensures { F.post f (P.rank_of packed) (P.rank_of result) }
            { P::pack(f(packed.rank())) },
        );
    }

    fn len(&self) -> usize {
        self.packed.len()
    }
}
