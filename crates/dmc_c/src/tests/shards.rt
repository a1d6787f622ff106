//! The worked examples of shard trackers, through the exports.
use crate::handle::Handle;
use crate::outputs::{DmcStamp, DmcTrack};
use crate::shards::{
    dmc_shards_arrive, dmc_shards_free, dmc_shards_give_back, dmc_shards_new, dmc_shards_skip,
    dmc_shards_status,
};
use crate::tests::run::not_memory;
use crate::tracker::{dmc_tracker_new, dmc_tracker_skip};
use std::alloc::Global;
use std::test::Fail;

/// A stamp: its delta, its rho and its cost.
type Counts = (u32, u32, u32);

/// The code of an arrival, and the stamp that it leaves.
fn arrive(shards: &mut Handle, shard: u32, came: Counts, alloc: Global) -> (u32, Counts) {
    let mut stamp = DmcStamp {
        delta: came.0,
        rho: came.1,
        cost: came.2,
    };
    let code = dmc_shards_arrive(shards, shard, &mut stamp, alloc);
    (code, (stamp.delta, stamp.rho, stamp.cost))
}

fn give_back(shards: &mut Handle, shard: u32, stamp: Counts, alloc: Global) -> u32 {
    let stamp = DmcStamp {
        delta: stamp.0,
        rho: stamp.1,
        cost: stamp.2,
    };
    dmc_shards_give_back(shards, shard, &stamp, alloc)
}

/// The code of a status, and what it writes: sent, pending, what came.
fn status(shards: &mut Handle, shard: u32, alloc: Global) -> (u32, [u64; 6]) {
    let mut track = DmcTrack {
        pending_delta: 9,
        pending_rho: 9,
        sent_delta: 9,
        sent_rho: 9,
        completions: 9,
        reservation: 9,
    };
    let code = dmc_shards_status(shards, shard, &mut track, alloc);
    let written = [
        track.sent_delta,
        track.sent_rho,
        track.pending_delta,
        track.pending_rho,
        track.completions,
        track.reservation,
    ];
    (code, written)
}

/// A request to shard 0, one to shard 1 that its queue refuses, and one to shard 1 again.
fn three_arrivals(alloc: Global) -> ([u32; 2], [(u32, Counts); 3], [(u32, [u64; 6]); 2]) {
    let mut shards = Handle::none();
    let made = dmc_shards_new(&mut shards, 2, 6, alloc);
    let first = arrive(&mut shards, 0, (2, 1, 1), alloc);
    let second = arrive(&mut shards, 1, (3, 0, 4), alloc);
    let back = give_back(&mut shards, 1, (5, 1, 4), alloc);
    let third = arrive(&mut shards, 1, (1, 1, 2), alloc);
    let written = [status(&mut shards, 0, alloc), status(&mut shards, 1, alloc)];
    dmc_shards_free(&mut shards, alloc);
    shards.end(alloc);
    ([made, back], [first, second, third], written)
}

#[test]
fn two_shards(rt: HostRuntime) -> Result<(), Fail> {
    let (codes, stamps, written) = three_arrivals(rt.alloc());
    not_memory(codes[0])?;
    assert_eq!(rt; codes, [0, 0]);
    let wanted = [(0, (2, 1, 1)), (0, (5, 1, 4)), (0, (6, 2, 2))];
    assert_eq!(rt; stamps, wanted);
    assert_eq!(rt; written[0], (0, [2, 1, 4, 1, 6, 2]));
    assert_eq!(rt; written[1], (0, [6, 2, 0, 0, 6, 2]));
    Ok(())
}

/// A shard that was not used while 2^32-1 came for the other, before it is skipped and after.
fn skip_between(alloc: Global) -> ([u32; 2], [(u32, Counts); 3], [(u32, [u64; 6]); 2]) {
    let mut shards = Handle::none();
    let made = dmc_shards_new(&mut shards, 2, 1 << 62, alloc);
    let first = arrive(&mut shards, 0, (0xffff_ffff, 1, 1), alloc);
    let stuck = arrive(&mut shards, 1, (1, 0, 1), alloc);
    let skipped = dmc_shards_skip(&mut shards, 1, alloc);
    let before = status(&mut shards, 1, alloc);
    let second = arrive(&mut shards, 1, (1, 1, 2), alloc);
    let after = status(&mut shards, 1, alloc);
    shards.end(alloc);
    ([made, skipped], [first, stuck, second], [before, after])
}

#[test]
fn skipped_shard(rt: HostRuntime) -> Result<(), Fail> {
    let (codes, stamps, written) = skip_between(rt.alloc());
    not_memory(codes[0])?;
    assert_eq!(rt; codes, [0, 0]);
    let wanted = [(0, (0xffff_ffff, 1, 1)), (31, (1, 0, 1)), (0, (1, 1, 2))];
    assert_eq!(rt; stamps, wanted);
    assert_eq!(rt; written[0], (0, [0, 0, 0, 0, 0xffff_ffff, 1]));
    assert_eq!(rt; written[1], (0, [1, 1, 0, 0, 1 << 32, 2]));
    Ok(())
}

/// The codes of a shard tracker of one shard to which a delta of 1 can come, each after what it is refused before.
fn refusals(alloc: Global) -> ([u32; 4], [(u32, Counts); 4], [u32; 4]) {
    let mut shards = Handle::none();
    let none = give_back(&mut shards, 9, (0, 1, 0), alloc);
    let made = dmc_shards_new(&mut shards, 1, 1, alloc);
    let again = dmc_shards_new(&mut shards, 0, 0, alloc);
    let no_tracker = dmc_tracker_skip(&mut shards, 0, alloc);
    let params = arrive(&mut shards, 9, (0, 1, 0), alloc);
    let cost = arrive(&mut shards, 9, (2, 1, 0), alloc);
    let server = arrive(&mut shards, 9, (2, 1, 1), alloc);
    let full = arrive(&mut shards, 0, (2, 1, 1), alloc);
    let back = [
        give_back(&mut shards, 9, (0, 1, 0), alloc),
        give_back(&mut shards, 9, (1, 1, 0), alloc),
        give_back(&mut shards, 9, (1, 1, 1), alloc),
        give_back(&mut shards, 0, (1, 1, 1), alloc),
    ];
    shards.end(alloc);
    (
        [none, made, again, no_tracker],
        [params, cost, server, full],
        back,
    )
}

/// Each code is met, in its order, and what is refused writes nothing.
#[test]
fn shard_codes(rt: HostRuntime) -> Result<(), Fail> {
    let (codes, arrivals, back) = refusals(rt.alloc());
    not_memory(codes[1])?;
    assert_eq!(rt; codes, [2, 0, 3, 2]);
    let wanted = [
        (11, (0, 1, 0)),
        (16, (2, 1, 0)),
        (30, (2, 1, 1)),
        (31, (2, 1, 1)),
    ];
    assert_eq!(rt; arrivals, wanted);
    assert_eq!(rt; back, [11, 16, 30, 32]);
    Ok(())
}

/// The codes of skips: no shard tracker, no such shard, one with nothing pending, one that is freed.
#[test]
fn shard_skip_codes(rt: HostRuntime) -> Result<(), Fail> {
    let alloc = rt.alloc();
    let mut shards = Handle::none();
    let none = dmc_shards_skip(&mut shards, 0, alloc);
    let made = dmc_shards_new(&mut shards, 1, 1, alloc);
    let elsewhere = dmc_shards_skip(&mut shards, 1, alloc);
    let empty = dmc_shards_skip(&mut shards, 0, alloc);
    dmc_shards_free(&mut shards, alloc);
    let freed = dmc_shards_skip(&mut shards, 0, alloc);
    shards.end(alloc);
    not_memory(made)?;
    assert_eq!(rt; [none, made, elsewhere, empty, freed], [2, 0, 30, 0, 2]);
    Ok(())
}

/// The codes of making a shard tracker of 65 shards, of one to which too much can come, and of a status of none.
fn unmade(alloc: Global) -> [u32; 4] {
    let mut shards = Handle::none();
    let wide = dmc_shards_new(&mut shards, 65, 1, alloc);
    let much = dmc_shards_new(&mut shards, 1, (1 << 62) + 1, alloc);
    let none = status(&mut shards, 0, alloc).0;
    let tracker = dmc_tracker_new(&mut shards, 1, 1, 0, alloc);
    let confused = status(&mut shards, 0, alloc).0;
    shards.end(alloc);
    [
        wide,
        much,
        none,
        if tracker == 0 { confused } else { tracker },
    ]
}

#[test]
fn no_shards(rt: HostRuntime) -> Result<(), Fail> {
    let codes = unmade(rt.alloc());
    not_memory(codes[3])?;
    assert_eq!(rt; codes, [15, 15, 2, 2]);
    Ok(())
}
