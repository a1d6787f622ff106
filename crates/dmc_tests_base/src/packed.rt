//! Packed ranks, at the ends of what they store.
use crate::same::assert_same;
use dmc_tag::rank::{LimitRank, PackedRank, Rank, ReadyRank, TagRank};
use dmc_tick::packed::{PackedLimitRank, PackedReadyRank, PackedTagRank};
use dmc_tick::tick::TickTag;
use dmc_types::ids::ClientId;
use std::process::Abort;
use std::test::Fail;

/// The least tag, the tags about 0, and the greatest one.
fn tags() -> [i128; 5] {
    [-(1 << 90), -1, 0, 1, 1 << 90]
}

/// The least client, one between, and the greatest.
const CLIENTS: [ClientId; 3] = [ClientId(0), ClientId(1 << 31), ClientId(u32::MAX)];

/// The tag of this many ticks.
fn tag(ticks: i128) -> Result<TickTag, Fail> {
    match TickTag::new(ticks) {
        Some(tag) => Ok(tag),
        None => Err(Fail::new("ticks of a tag")),
    }
}

/// Each rank is below the next one, and so it is packed.
fn assert_rising<R: Rank, P: PackedRank<R>>(rt: &impl Abort, ranks: &[R]) {
    for place in 1..ranks.len() {
        let lower = ranks[place - 1];
        let upper = ranks[place];
        assert!(rt; lower.is_below(&upper));
        assert!(rt; P::pack(lower).is_below(&P::pack(upper)));
        assert!(rt; !P::pack(upper).is_below(&P::pack(lower)));
        assert!(rt; !P::pack(lower).is_below(&P::pack(lower)));
    }
}

#[test]
fn packed_tag_ranks(rt: HostRuntime) -> Result<(), Fail> {
    let mut ranks = Vec::new(rt.alloc());
    for ticks in tags() {
        for client in CLIENTS {
            ranks.push(TagRank {
                tag: Some(tag(ticks)?),
                client,
            })?;
        }
    }
    for client in CLIENTS {
        ranks.push(TagRank { tag: None, client })?;
    }
    assert_rising::<TagRank<TickTag>, PackedTagRank>(&rt, ranks.as_slice());
    for rank in ranks.iter() {
        let again = PackedTagRank::pack(*rank).rank();
        assert_same(&rt, &again.tag, &rank.tag);
        assert_same(&rt, &again.client, &rank.client);
    }
    Ok(())
}

#[test]
fn packed_limit_ranks(rt: HostRuntime) -> Result<(), Fail> {
    let mut ranks = Vec::new(rt.alloc());
    for ready in [false, true] {
        for ticks in tags() {
            for client in CLIENTS {
                let tag = tag(ticks)?;
                ranks.push(LimitRank { tag, client, ready })?;
            }
        }
    }
    assert_rising::<LimitRank<TickTag>, PackedLimitRank>(&rt, ranks.as_slice());
    for rank in ranks.iter() {
        let again = PackedLimitRank::pack(*rank).rank();
        assert_same(&rt, &again.tag, &rank.tag);
        assert_same(&rt, &again.client, &rank.client);
        assert_same(&rt, &again.ready, &rank.ready);
    }
    Ok(())
}

#[test]
fn packed_ready_ranks(rt: HostRuntime) -> Result<(), Fail> {
    let mut ranks = Vec::new(rt.alloc());
    for ready in [true, false] {
        for ticks in tags() {
            for client in CLIENTS {
                let tag = tag(ticks)?;
                ranks.push(ReadyRank { tag, client, ready })?;
            }
        }
    }
    assert_rising::<ReadyRank<TickTag>, PackedReadyRank>(&rt, ranks.as_slice());
    for rank in ranks.iter() {
        let again = PackedReadyRank::pack(*rank).rank();
        assert_same(&rt, &again.tag, &rank.tag);
        assert_same(&rt, &again.client, &rank.client);
        assert_same(&rt, &again.ready, &rank.ready);
    }
    Ok(())
}
