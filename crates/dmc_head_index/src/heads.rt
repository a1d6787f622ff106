//! The heads in three orders.
ghost use Rattle.std.specs.Prelude.{◌≡◌, ℕ, ◌-◌, ◌<◌, ◌≤◌, ◌++◌, [], Some, None, OnOk, OnErr, MatchOption, IsSome, IsSomeAnd, false, length, replicate, slice_set, map, count_by, is_some};
ghost use Rattle.std.specs.Option.{option_map, option_map_or};
ghost use Rattle.dmc_index.specs.Index.{slot_of_key, IsEmpty};
ghost use Rattle.dmc_tag.specs.Rank.{tag_rank_cmp, limit_rank_cmp, ready_rank_cmp};
ghost use Rattle.dmc_head_index.specs.Heads as heads_of;
ghost use Rattle.dmc_head_index.specs.internal.Heads.{less_rank};
ghost use Rattle.dmc_head_index.specs.internal.Marks as marks_of;
ghost use Rattle.dmc_head_index.specs.internal.Marks.{CanMark};
ghost use Rattle.dmc_head_index.specs.Heads.{Ranks, IsOthers, IsFirst, IsLeastShare, CanShift};

use crate::head::Head;
use crate::share::{find_least, least_after, least_with, least_without, less_rank};
use dmc_index::index::{Indexes, OrderIndex};
use dmc_tag::due::is_due;
use dmc_tag::rank::{LimitRank, ReadyRank, TagRank};
use dmc_tag::shifting::less;
use dmc_tag::tag::Tag;
use dmc_types::moment::Moment;
use std::alloc::{AllocError, Global};
use std::marker::Model;

/// A finite map from keys to heads, in the orders of R, of L (unready ones first) and of P (ready ones first). No two keys have
/// one client. No call but `reserve` allocates.
#[derive(Drop)]
pub struct Heads<T: Tag, I: Indexes<T>> {
    reservation: I::ReservationIndex,
    limit: I::LimitIndex,
    weight: I::WeightIndex,
    // The least P, if it is known.
    least: Option<T>,
    // The capacity of the last index.
    room: usize,
}

impl<T: Tag, I: Indexes<T>> Model for Heads<T, I> {
    ghost use Rattle.std.specs.Prelude.{List, Option};
    ghost use Rattle.dmc_head_index.specs.declared.head.Head.{Head};
    ghost use Rattle.dmc_head_index.specs.Heads.{heads_from, IsSound};

    ghost Value = { List (Option (Head T)) };

    ghost view = { λ x. heads_from (I.ReservationIndex.slots x.reservation) (I.LimitIndex.slots x.limit) (I.WeightIndex.slots x.weight) };

    ghost invariant = { λ x. IsSound T.ops (I.ReservationIndex.slots x.reservation) (I.LimitIndex.slots x.limit) (I.WeightIndex.slots x.weight) x.least x.room };
}

impl<T: Tag, I: Indexes<T>> Heads<T, I> {
    /// No heads, and capacity 0. It does not allocate.
    pub fn new(alloc: Global) -> Heads<T, I>
        ensures { result ≡ [] }
    {
        Heads {
            reservation: I::ReservationIndex::new(alloc),
            limit: I::LimitIndex::new(alloc),
            weight: I::WeightIndex::new(alloc),
            least: None,
            room: 0,
        }
    }

    /// How many keys have a head.
    pub fn len(&self) -> usize
        ensures { result ≡ count_by is_some self.now }
    {
        self.weight.len()
    }

    /// Raises the capacity to n, in all three orders. It never falls.
    pub fn reserve(&mut self, n: usize) -> Result<(), AllocError>
        ensures ok { OnOk result (self.new ≡ self.old ++ replicate (n - length self.old) None) }
        ensures err { OnErr result ((key : ℕ) → slot_of_key self.new key ≡ slot_of_key self.old key) }
        ensures room { length self.old ≤ length self.new }
    {
        self.reservation.reserve_keys(n)?;
        self.limit.reserve_keys(n)?;
        self.weight.reserve_keys(n)?;
        self.room = self.room.max(n);
        Ok(())
    }

    /// The index by R.
    pub fn by_reservation(&self) -> &I::ReservationIndex
        ensures { Ranks heads_of.tag_rank self.now (I.ReservationIndex.slots result.now) }
    {
        &self.reservation
    }

    /// The index by L, unready ones first.
    pub fn by_limit(&self) -> &I::LimitIndex
        ensures { Ranks heads_of.limit_rank self.now (I.LimitIndex.slots result.now) }
    {
        &self.limit
    }

    /// The index by P, ready ones first.
    pub fn by_weight(&self) -> &I::WeightIndex
        ensures { Ranks heads_of.ready_rank self.now (I.WeightIndex.slots result.now) }
    {
        &self.weight
    }

    /// The key of the least R, and the rank. An absent R is last.
    pub fn least_by_reservation(&self) -> Option<(usize, TagRank<T>)>
        ensures { MatchOption result (IsEmpty self.now) (λ p. IsFirst heads_of.tag_rank (tag_rank_cmp T.ops.compare) self.now p.0 p.1) }
    {
        self.reservation.least()
    }

    /// The key of the least L of the unready heads, or of all if none is unready, and the rank.
    pub fn least_by_limit(&self) -> Option<(usize, LimitRank<T>)>
        ensures { MatchOption result (IsEmpty self.now) (λ p. IsFirst heads_of.limit_rank (limit_rank_cmp T.ops.compare) self.now p.0 p.1) }
    {
        self.limit.least()
    }

    /// The key of the least P of the ready heads, or of all if none is ready, and the rank.
    pub fn least_by_weight(&self) -> Option<(usize, ReadyRank<T>)>
        ensures { MatchOption result (IsEmpty self.now) (λ p. IsFirst heads_of.ready_rank (ready_rank_cmp T.ops.compare) self.now p.0 p.1) }
    {
        self.weight.least()
    }

    /// Gives a head to a key that has none, of a client that no key has.
    pub fn insert(&mut self, key: usize, head: Head<T>)
        requires in_room { key < length self.old }
        requires vacant { slot_of_key self.old key ≡ None }
        requires apart { IsOthers self.old key head.client }
        ensures { self.new ≡ slice_set self.old key (Some head) }
    {
        let is_first = self.weight.is_empty();
        self.reservation.insert(key, head.tag_rank());
        self.limit.insert(key, head.limit_rank());
        self.weight.insert(key, head.ready_rank());
        self.least = least_with(is_first, self.least, head.tags.p);
    }

    /// Gives a key another head of its client.
    pub fn change(&mut self, key: usize, head: Head<T>)
        requires here { option_map (λ h. h.client) (slot_of_key self.old key) ≡ Some head.client }
        ensures { self.new ≡ slice_set self.old key (Some head) }
    {
        let old = self.weight.get(key).unwrap().tag;
        self.reservation.change(key, head.tag_rank());
        self.limit.change(key, head.limit_rank());
        self.weight.change(key, head.ready_rank());
        self.least = least_after(self.least, old, head.tags.p);
    }

    /// Removes a key.
    pub fn remove(&mut self, key: usize)
        requires { IsSome (slot_of_key self.old key) }
        ensures { self.new ≡ slice_set self.old key None }
    {
        self.reservation.remove(key);
        self.limit.remove(key);
        let rank = self.weight.remove(key);
        self.least = least_without(self.least, rank.tag);
    }

    /// Takes the amount off each P.
    pub fn shift(&mut self, amount: T)
        requires { CanShift T.ops amount self.old }
        ensures { self.new ≡ map (option_map (heads_of.shifted T.ops amount)) self.old }
    {
        self.weight.map_ranks(
            |rank: ReadyRank<T>| -> ReadyRank<T>
                ensures { result ≡ less_rank T.ops amount rank }
            { less_rank(rank, amount) },
        );
        self.least = match self.least {
            None => None,
            Some(least) => Some(less(least, amount)),
        };
    }

    /// Marks each head ready whose L is at most t.
    pub fn promote(&mut self, t: Moment)
        ensures { self.new ≡ map (option_map (heads_of.with_ready_mark T.ops t)) self.old }
    {
        while let Some(key) = self.next_to_mark(t) {
            self.set_ready(key, true);
        }
    }

    /// Resets each ready mark whose L is above t.
    pub fn set_back(&mut self, t: Moment)
        ensures { self.new ≡ map (option_map (heads_of.set_back T.ops t)) self.old }
    {
        let room = self.room;
        for key in 0..room {
            self.set_back_at(key, t);
        }
    }

    /// The least P of all heads, and `None` if there is no head. It is stored until a head with that P is removed or changed,
    /// and then found again by a pass over the keys.
    pub fn least_share(&mut self) -> Option<T>
        ensures value { MatchOption result (IsEmpty self.old) (IsLeastShare T.ops self.old) }
        ensures same { self.new ≡ self.old }
    {
        if self.least.is_none() {
            self.least = find_least(&self.weight, self.room);
        }
        self.least
    }

    // Sets the ready mark of a head.
    fn set_ready(&mut self, key: usize, ready: bool)
        requires { IsSome (slot_of_key self.old key) }
        ensures { self.new ≡ slice_set self.old key (option_map (marks_of.with_ready ready) (slot_of_key self.old key)) }
    {
        let limit = self.limit.get(key).unwrap();
        let share = self.weight.get(key).unwrap();
        self.limit.change(key, LimitRank { ready, ..limit });
        self.weight.change(key, ReadyRank { ready, ..share });
    }

    // The key of an unready head whose L is at most t.
    fn next_to_mark(&self, t: Moment) -> Option<usize>
        ensures { MatchOption result (map (option_map (heads_of.with_ready_mark T.ops t)) self.now ≡ self.now) (λ key. IsSomeAnd (slot_of_key self.now key) (CanMark T.ops t)) }
    {
        match self.limit.least() {
            None => None,
            Some((key, rank)) => {
                if rank.ready || !is_due(Some(rank.tag), t) {
                    return None;
                }
                Some(key)
            }
        }
    }

    // Resets the ready mark of a key whose L is above t.
    fn set_back_at(&mut self, key: usize, t: Moment)
        ensures { self.new ≡ slice_set self.old key (option_map (heads_of.set_back T.ops t) (slot_of_key self.old key)) }
    {
        if self.is_past(key, t) {
            self.set_ready(key, false);
        }
    }

    // Whether the key has a head that is ready, and whose L is above t.
    fn is_past(&self, key: usize, t: Moment) -> bool
        ensures { result ≡ option_map_or (marks_of.is_past T.ops t) (slot_of_key self.now key) false }
    {
        match self.limit.get(key) {
            None => false,
            Some(rank) => rank.ready && !is_due(Some(rank.tag), t),
        }
    }
}
