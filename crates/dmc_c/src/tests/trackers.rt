//! The worked examples of trackers, through the exports.
use crate::handle::Handle;
use crate::outputs::{DmcStamp, DmcTrack};
use crate::tests::run::not_memory;
use crate::tracker::{
    dmc_stamp_with_returned, dmc_tracker_free, dmc_tracker_new, dmc_tracker_respond,
    dmc_tracker_skip, dmc_tracker_stamp, dmc_tracker_status,
};
use std::alloc::Global;
use std::test::Fail;

/// What no stamp carries.
const NO_STAMP: DmcStamp = DmcStamp {
    delta: 9,
    rho: 9,
    cost: 9,
};

/// What no tracker writes.
const NO_TRACK: DmcTrack = DmcTrack {
    pending_delta: 9,
    pending_rho: 9,
    sent_delta: 9,
    sent_rho: 9,
    completions: 9,
    reservation: 9,
};

/// The code of a stamp of a cost, and what it carries.
fn stamp_of_cost(tracker: &mut Handle, server: u32, cost: u32, alloc: Global) -> (u32, DmcStamp) {
    let mut params = NO_STAMP;
    let code = dmc_tracker_stamp(tracker, server, cost, &mut params, alloc);
    (code, params)
}

/// The code of a stamp of cost 1, and its counts.
fn stamp(tracker: &mut Handle, server: u32, alloc: Global) -> (u32, u32, u32) {
    let (code, params) = stamp_of_cost(tracker, server, 1, alloc);
    (code, params.delta, params.rho)
}

/// The code of a status, and what it writes: sent, pending, completions.
fn status(tracker: &mut Handle, server: u32, alloc: Global) -> (u32, [u64; 6]) {
    let mut track = NO_TRACK;
    let code = dmc_tracker_status(tracker, server, &mut track, alloc);
    let written = [
        track.sent_delta,
        track.sent_rho,
        track.pending_delta,
        track.pending_rho,
        track.completions,
        track.reservation,
    ];
    (code, written)
}

/// Stamp 0, response 0 reservation, stamp 1, response 1 priority, stamp 0, and what is reported of both servers.
fn three_stamps(
    counting: u32,
    alloc: Global,
) -> ([u32; 3], [(u32, u32, u32); 3], [(u32, [u64; 6]); 2]) {
    let mut tracker = Handle::none();
    let made = dmc_tracker_new(&mut tracker, 2, 10, counting, alloc);
    let first = stamp(&mut tracker, 0, alloc);
    let one = dmc_tracker_respond(&mut tracker, 0, 0, 1, alloc);
    let second = stamp(&mut tracker, 1, alloc);
    let two = dmc_tracker_respond(&mut tracker, 1, 1, 1, alloc);
    let third = stamp(&mut tracker, 0, alloc);
    let written = [
        status(&mut tracker, 0, alloc),
        status(&mut tracker, 1, alloc),
    ];
    dmc_tracker_free(&mut tracker, alloc);
    tracker.end(alloc);
    ([made, one, two], [first, second, third], written)
}

#[test]
fn two_server_tracker(rt: HostRuntime) -> Result<(), Fail> {
    let (codes, stamps, written) = three_stamps(0, rt.alloc());
    not_memory(codes[0])?;
    assert_eq!(rt; codes, [0, 0, 0]);
    assert_eq!(rt; stamps, [(0, 0, 0), (0, 1, 1), (0, 2, 1)]);
    assert_eq!(rt; written[0], (0, [2, 1, 0, 0, 2, 1]));
    assert_eq!(rt; written[1], (0, [1, 1, 1, 0, 2, 1]));
    Ok(())
}

/// Two stamps to server 0 by a tracker that counts one completion.
fn two_of_one(alloc: Global) -> (u32, [(u32, u32, u32); 2]) {
    let mut tracker = Handle::none();
    let made = dmc_tracker_new(&mut tracker, 2, 1, 1, alloc);
    let first = stamp(&mut tracker, 0, alloc);
    let second = stamp(&mut tracker, 0, alloc);
    tracker.end(alloc);
    (made, [first, second])
}

#[test]
fn others_tracker(rt: HostRuntime) -> Result<(), Fail> {
    let (codes, stamps, written) = three_stamps(1, rt.alloc());
    not_memory(codes[0])?;
    assert_eq!(rt; codes, [0, 0, 0]);
    assert_eq!(rt; stamps, [(0, 1, 1), (0, 2, 2), (0, 2, 1)]);
    assert_eq!(rt; written[0], (0, [3, 2, 0, 0, 2, 1]));
    assert_eq!(rt; written[1], (0, [2, 2, 0, 0, 2, 1]));
    let (made, stamps) = two_of_one(rt.alloc());
    assert_eq!(rt; (not_memory(made)?, stamps), (0, [(0, 1, 1), (31, 9, 9)]));
    Ok(())
}

/// The codes of a tracker of one server that counts one completion: no such server, no such phase, full, none held.
fn refusals(alloc: Global) -> [u32; 9] {
    let mut tracker = Handle::none();
    let made = dmc_tracker_new(&mut tracker, 1, 1, 0, alloc);
    let again = dmc_tracker_new(&mut tracker, 0, 0, 9, alloc);
    let elsewhere = stamp(&mut tracker, 1, alloc).0;
    let unknown = status(&mut tracker, 1, alloc).0;
    let phase = dmc_tracker_respond(&mut tracker, 1, 2, 1, alloc);
    let server = dmc_tracker_respond(&mut tracker, 1, 1, 1, alloc);
    let counted = dmc_tracker_respond(&mut tracker, 0, 1, 1, alloc);
    let full = dmc_tracker_respond(&mut tracker, 0, 1, 1, alloc);
    dmc_tracker_free(&mut tracker, alloc);
    let freed = status(&mut tracker, 0, alloc).0;
    tracker.end(alloc);
    [
        made, again, elsewhere, unknown, phase, server, counted, full, freed,
    ]
}

#[test]
fn tracker_limits(rt: HostRuntime) -> Result<(), Fail> {
    let codes = refusals(rt.alloc());
    not_memory(codes[0])?;
    assert_eq!(rt; codes, [0, 3, 30, 30, 14, 30, 0, 31, 2]);
    let mut tracker = Handle::none();
    let codes = [
        dmc_tracker_new(&mut tracker, 65, 1, 0, rt.alloc()),
        dmc_tracker_new(&mut tracker, 1, 0, 0, rt.alloc()),
        dmc_tracker_new(&mut tracker, 65, 1, 2, rt.alloc()),
        dmc_tracker_respond(&mut tracker, 0, 2, 1, rt.alloc()),
        stamp(&mut tracker, 0, rt.alloc()).0,
    ];
    tracker.end(rt.alloc());
    assert_eq!(rt; codes, [15, 15, 13, 2, 2]);
    Ok(())
}

/// Two responses of server 0, a skip of server 1, and a stamp to each: the codes and the stamps, and what is written of both
/// servers before the stamps.
fn skip_between(
    counting: u32,
    alloc: Global,
) -> ([u32; 4], [(u32, [u64; 6]); 2], [(u32, u32, u32); 2]) {
    let mut tracker = Handle::none();
    let made = dmc_tracker_new(&mut tracker, 2, 1 << 62, counting, alloc);
    let one = dmc_tracker_respond(&mut tracker, 0, 0, 1, alloc);
    let two = dmc_tracker_respond(&mut tracker, 0, 1, 1, alloc);
    let skipped = dmc_tracker_skip(&mut tracker, 1, alloc);
    let written = [
        status(&mut tracker, 0, alloc),
        status(&mut tracker, 1, alloc),
    ];
    let stamps = [stamp(&mut tracker, 0, alloc), stamp(&mut tracker, 1, alloc)];
    tracker.end(alloc);
    ([made, one, two, skipped], written, stamps)
}

#[test]
fn skipped_server(rt: HostRuntime) -> Result<(), Fail> {
    let (codes, written, stamps) = skip_between(0, rt.alloc());
    not_memory(codes[0])?;
    assert_eq!(rt; codes, [0; 4]);
    assert_eq!(rt; written, [(0, [0, 0, 2, 1, 2, 1]), (0, [0, 0, 0, 0, 2, 1])]);
    assert_eq!(rt; stamps, [(0, 2, 1), (0, 0, 0)]);
    let (codes, written, stamps) = skip_between(1, rt.alloc());
    assert_eq!(rt; (not_memory(codes[0])?, codes[3]), (0, 0));
    assert_eq!(rt; written, [(0, [0, 0, 0, 0, 2, 1]), (0, [0, 0, 0, 0, 2, 1])]);
    assert_eq!(rt; stamps, [(0, 1, 1), (0, 1, 1)]);
    Ok(())
}

/// The codes of skips: no tracker, no such server, a queue; and of trackers that count 0 and more than 2^62 completions.
#[test]
fn skip_refusals(rt: HostRuntime) -> Result<(), Fail> {
    let alloc = rt.alloc();
    let mut tracker = Handle::none();
    let none = dmc_tracker_skip(&mut tracker, 0, alloc);
    let past = dmc_tracker_new(&mut tracker, 1, (1 << 62) + 1, 0, alloc);
    let made = dmc_tracker_new(&mut tracker, 1, 1, 0, alloc);
    let elsewhere = dmc_tracker_skip(&mut tracker, 1, alloc);
    let empty = dmc_tracker_skip(&mut tracker, 0, alloc);
    tracker.end(alloc);
    not_memory(made)?;
    assert_eq!(rt; [none, past, made, elsewhere, empty], [2, 15, 0, 30, 0]);
    Ok(())
}

/// Three stamps and two responses of these costs between them, at a tracker of two servers: the codes, and delta, rho and cost of
/// each stamp.
fn stamps_of_costs(counting: u32, costs: [u32; 3], alloc: Global) -> ([u32; 6], [[u32; 3]; 3]) {
    let mut tracker = Handle::none();
    let made = dmc_tracker_new(&mut tracker, 2, 100, counting, alloc);
    let first = stamp_of_cost(&mut tracker, 0, costs[0], alloc);
    let one = dmc_tracker_respond(&mut tracker, 0, 0, 8, alloc);
    let second = stamp_of_cost(&mut tracker, 1, costs[1], alloc);
    let two = dmc_tracker_respond(&mut tracker, 1, 1, if counting == 0 { 2 } else { 3 }, alloc);
    let third = stamp_of_cost(&mut tracker, 0, costs[2], alloc);
    tracker.end(alloc);
    let codes = [made, first.0, one, second.0, two, third.0];
    let stamps = [first.1, second.1, third.1].map(|stamp| [stamp.delta, stamp.rho, stamp.cost]);
    (codes, stamps)
}

#[test]
fn costs_are_counted(rt: HostRuntime) -> Result<(), Fail> {
    let (codes, stamps) = stamps_of_costs(0, [8, 1, 1], rt.alloc());
    not_memory(codes[0])?;
    assert_eq!(rt; codes, [0; 6]);
    assert_eq!(rt; stamps, [[0, 0, 8], [8, 8, 1], [10, 8, 1]]);
    let (codes, stamps) = stamps_of_costs(1, [8, 3, 1], rt.alloc());
    assert_eq!(rt; (not_memory(codes[0])?, codes[5]), (0, 0));
    assert_eq!(rt; stamps, [[8, 8, 8], [11, 11, 3], [4, 1, 1]]);
    Ok(())
}

/// The codes of a cost of 0: after the handle and the phase, before the server. And a response that would pass `most`.
#[test]
fn refused_costs(rt: HostRuntime) -> Result<(), Fail> {
    let alloc = rt.alloc();
    let mut tracker = Handle::none();
    let none = stamp_of_cost(&mut tracker, 0, 0, alloc).0;
    let made = dmc_tracker_new(&mut tracker, 1, 5, 0, alloc);
    let codes = [
        none,
        made,
        stamp_of_cost(&mut tracker, 1, 0, alloc).0,
        dmc_tracker_respond(&mut tracker, 1, 2, 0, alloc),
        dmc_tracker_respond(&mut tracker, 1, 1, 0, alloc),
        dmc_tracker_respond(&mut tracker, 0, 1, 6, alloc),
        dmc_tracker_respond(&mut tracker, 0, 1, 5, alloc),
        dmc_tracker_respond(&mut tracker, 0, 1, 1, alloc),
    ];
    tracker.end(alloc);
    not_memory(made)?;
    assert_eq!(rt; codes, [2, 0, 16, 14, 16, 31, 0, 31]);
    Ok(())
}

/// The code of a stamp with another one's counts besides, and what it carries then.
fn with_returned(counts: [u32; 3], returned: [u32; 3], counting: u32) -> (u32, [u32; 3]) {
    let stamp_of = |counts: [u32; 3]| DmcStamp {
        delta: counts[0],
        rho: counts[1],
        cost: counts[2],
    };
    let mut stamp = stamp_of(counts);
    let code = dmc_stamp_with_returned(&mut stamp, &stamp_of(returned), counting);
    (code, [stamp.delta, stamp.rho, stamp.cost])
}

#[test]
fn returned_stamps(rt: HostRuntime) {
    assert_eq!(rt; with_returned([3, 1, 2], [7, 5, 4], 0), (0, [10, 6, 2]));
    assert_eq!(rt; with_returned([3, 1, 2], [7, 5, 4], 1), (0, [6, 2, 2]));
    assert_eq!(rt;
        with_returned([u32::MAX - 6, 0, 1], [7, 0, 1], 0),
        (31, [u32::MAX - 6, 0, 1])
    );
    assert_eq!(rt;
        with_returned([u32::MAX - 6, 0, 1], [7, 0, 1], 1),
        (0, [u32::MAX, 0, 1])
    );
    let refused = [
        with_returned([0, 1, 0], [0, 1, 0], 2).0,
        with_returned([0, 1, 0], [0, 1, 0], 0).0,
        with_returned([1, 1, 0], [0, 1, 0], 0).0,
        with_returned([1, 1, 1], [0, 1, 0], 0).0,
        with_returned([1, 1, 1], [0, 0, 0], 0).0,
    ];
    assert_eq!(rt; refused, [13, 11, 16, 11, 16]);
}
