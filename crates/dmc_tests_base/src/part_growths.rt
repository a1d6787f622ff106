//! Indexes and rosters that grow, with each allocation refused in turn: a growth that is refused leaves the value as it was, and
//! works when it is made again.
ghost use Rattle.std.specs.Prelude.{◌≡◌, []};

use crate::failures::Failures;
use crate::heaps::rank;
use crate::rosters::{is_registered, new_record};
use crate::same::assert_same;
use dmc_heap::adaptive_index::AdaptiveIndex;
use dmc_heap::indexed_heap::IndexedHeap;
use dmc_index::index::OrderIndex;
use dmc_index::list_index::ListIndex;
use dmc_index::sliding_index::SlidingIndex;
use dmc_roster::roster::Roster;
use dmc_tag::rank::TagRank;
use dmc_tick::tick::TickTag;
use dmc_types::ids::ClientId;
use dmc_types::moment::Moment;
use std::alloc::{AllocError, Global};
use std::process::Abort;
use std::test::Fail;

/// How many keys an index has, and the least of them with its tag.
type Contents = (usize, Option<(usize, Option<u64>)>);

fn contents<I: OrderIndex<TagRank<u64>>>(index: &I) -> Contents {
    let least = index.least().map(|(key, rank)| (key, rank.tag));
    (index.len(), least)
}

/// Reserves keys. If that is refused the index is as it was, and the keys are reserved again.
fn reserve<I: OrderIndex<TagRank<u64>>>(
    rt: &impl Abort,
    index: &mut I,
    failures: &mut Failures,
    count: usize,
) -> Result<(), AllocError> {
    let before = contents(index);
    if index.reserve_keys(count).is_ok() {
        return Ok(());
    }
    failures.note();
    assert_same(rt, &contents(index), &before);
    index.reserve_keys(count)
}

/// An index of two keys that grows.
fn grown_index<I: OrderIndex<TagRank<u64>>>(rt: &impl Abort, index: &mut I) -> Result<(), Fail>
    requires { I.OrderIndex.slots index.old ≡ [] }
{
    let mut failures = Failures::none();
    index.reserve_keys(2)?;
    index.insert(1, rank(5, 1));
    index.insert(0, rank(3, 0));
    for count in [10usize, 100, 1000] {
        reserve(rt, index, &mut failures, count)?;
    }
    assert_same(rt, &contents(index), &(2, Some((0, Some(3)))));
    Ok(failures.end()?)
}

fn grown_over<I: OrderIndex<TagRank<u64>>>(rt: &impl Abort, alloc: Global) -> Result<(), Fail> {
    let mut index = I::new(alloc);
    grown_index(rt, &mut index)
}

#[test]
fn grown_indexes(rt: HostRuntime) -> Result<(), Fail> {
    grown_over::<ListIndex<TagRank<u64>>>(&rt, rt.alloc())?;
    grown_over::<SlidingIndex<TagRank<u64>>>(&rt, rt.alloc())?;
    grown_over::<IndexedHeap<TagRank<u64>>>(&rt, rt.alloc())?;
    grown_over::<AdaptiveIndex<TagRank<u64>>>(&rt, rt.alloc())
}

/// Registers a client. Returns whether it is registered, which it is not if an allocation failed.
fn is_added(alloc: Global, roster: &mut Roster<TickTag>, id: ClientId) -> Result<bool, Fail> {
    let rec = new_record(alloc, Moment::zero())?;
    if roster.find(id).is_some() || roster.len() >= 65_536 {
        return Err(Fail::from("no room"));
    }
    Ok(roster.add(id, rec).is_ok())
}

/// Registers the client of a number. If that is refused the roster is as it was, and the client is registered again.
fn add(
    rt: &impl Abort,
    alloc: Global,
    roster: &mut Roster<TickTag>,
    failures: &mut Failures,
    id: u32,
) -> Result<(), Fail> {
    let before = (roster.len(), roster.next_key());
    if is_added(alloc, roster, ClientId(id))? {
        return Ok(());
    }
    failures.note();
    assert_same(rt, &(roster.len(), roster.next_key()), &before);
    assert!(rt; !is_registered(roster, id));
    if is_added(alloc, roster, ClientId(id))? {
        Ok(())
    } else {
        Err(AllocError.into())
    }
}

#[test]
fn grown_rosters(rt: HostRuntime) -> Result<(), Fail> {
    let mut failures = Failures::none();
    let mut roster = Roster::new(rt.alloc());
    for id in 0..100 {
        add(&rt, rt.alloc(), &mut roster, &mut failures, id)?;
    }
    assert_same(&rt, &roster.len(), &100);
    assert!(rt; is_registered(&roster, 0) && is_registered(&roster, 99));
    Ok(failures.end()?)
}
