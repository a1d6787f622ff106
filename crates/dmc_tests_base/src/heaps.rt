//! The worked examples of an index, over each kind of index.
ghost use Rattle.std.specs.Prelude.{◌≡◌, [], Some};

use crate::same::assert_same;
use dmc_heap::adaptive_index::AdaptiveIndex;
use dmc_heap::indexed_heap::IndexedHeap;
use dmc_index::index::OrderIndex;
use dmc_index::list_index::ListIndex;
use dmc_index::sliding_index::SlidingIndex;
use dmc_tag::rank::TagRank;
use dmc_types::ids::ClientId;
use std::alloc::Global;
use std::process::Abort;
use std::test::Fail;

/// The rank of a tag of a client.
pub fn rank(tag: u64, client: u32) -> TagRank<u64>
    ensures { result ≡ record { tag = Some tag; client = record { 0 = client } } }
{
    TagRank {
        tag: Some(tag),
        client: ClientId(client),
    }
}

/// The least rank is that of a key, and has a tag.
fn assert_first<I: OrderIndex<TagRank<u64>>>(rt: &impl Abort, index: &I, key: usize, tag: u64) {
    let (least, rank) = index.least().expect(rt, "a key is held");
    assert_same(rt, &least, &key);
    assert_same(rt, &rank.tag, &Some(tag));
}

fn calls_of<I: OrderIndex<TagRank<u64>>>(rt: &impl Abort, index: &mut I) -> Result<(), Fail>
    requires { I.OrderIndex.slots index.old ≡ [] }
{
    index.reserve_keys(4)?;
    index.insert(3, rank(5, 1));
    index.insert(0, rank(5, 0));
    assert_first(rt, index, 0, 5);
    index.change(0, rank(9, 0));
    assert_first(rt, index, 3, 5);
    index.map_ranks(|rank| TagRank {
        tag: rank.tag.map(|tag| tag - 5),
        client: rank.client,
    });
    assert_first(rt, index, 3, 0);
    let removed = index.remove(3);
    assert_same(rt, &removed.tag, &Some(0));
    assert_same(rt, &removed.client, &ClientId(1));
    assert_first(rt, index, 0, 4);
    assert_same(rt, &index.len(), &1);
    assert!(rt; index.get(3).is_none());
    Ok(())
}

fn calls_over<I: OrderIndex<TagRank<u64>>>(rt: &impl Abort, alloc: Global) -> Result<(), Fail> {
    let mut index = I::new(alloc);
    calls_of(rt, &mut index)
}

fn order_of<I: OrderIndex<TagRank<u64>>>(rt: &impl Abort, alloc: Global) -> Result<(), Fail> {
    let mut index = I::new(alloc);
    index.reserve_keys(7)?;
    let tags = [1u64, 10, 2, 20, 21, 5, 3];
    for key in 0..7 {
        index.insert(
            key,
            TagRank {
                tag: Some(tags[key]),
                client: ClientId(key as u32),
            },
        );
    }
    let removed = index.remove(3);
    assert_same(rt, &removed.tag, &Some(20));
    for key in [0usize, 2, 6, 5, 1, 4] {
        let (least, _) = index.least().expect(rt, "a key is held");
        assert_same(rt, &least, &key);
        index.remove(least);
    }
    assert!(rt; index.is_empty());
    Ok(())
}

#[test]
fn index_calls(rt: HostRuntime) -> Result<(), Fail> {
    calls_over::<ListIndex<TagRank<u64>>>(&rt, rt.alloc())?;
    calls_over::<SlidingIndex<TagRank<u64>>>(&rt, rt.alloc())?;
    calls_over::<IndexedHeap<TagRank<u64>>>(&rt, rt.alloc())?;
    calls_over::<AdaptiveIndex<TagRank<u64>>>(&rt, rt.alloc())
}

#[test]
fn heap_order(rt: HostRuntime) -> Result<(), Fail> {
    order_of::<ListIndex<TagRank<u64>>>(&rt, rt.alloc())?;
    order_of::<SlidingIndex<TagRank<u64>>>(&rt, rt.alloc())?;
    order_of::<IndexedHeap<TagRank<u64>>>(&rt, rt.alloc())?;
    order_of::<AdaptiveIndex<TagRank<u64>>>(&rt, rt.alloc())
}
