//! Each code is met, in its order.
use crate::fault::{Fault, code_of};
use crate::handle::Handle;
use crate::queue::{
    dmc_queue_add, dmc_queue_cancel, dmc_queue_clean, dmc_queue_counts, dmc_queue_free,
    dmc_queue_new, dmc_queue_pull, dmc_queue_register, dmc_queue_remove, dmc_queue_update,
};
use crate::reading::DmcConfig;
use crate::tests::run::{Line, RATIOS, TICKS, no_pull, no_tags, not_memory, replies};
use crate::tracker::{dmc_tracker_new, dmc_tracker_respond};
use Line::{Add, AddOfCost, Cancel, Clean, Client, Pull, Update};
use std::alloc::{AllocError, Global};
use std::test::Fail;

/// Each call at a handle that holds no queue.
fn none_held(queue: &mut Handle, alloc: Global) -> [u32; 8] {
    let (mut tags, mut pulled, mut first, mut second) = (no_tags(), no_pull(), 9, 9);
    [
        dmc_queue_register(queue, 1, 0, 0, 0, 1 << 63, alloc),
        dmc_queue_update(queue, 1, 0, 0, 0, 1 << 63, alloc),
        dmc_queue_add(queue, 1, 1, 0, 1, 0, 1 << 63, &mut tags, alloc),
        dmc_queue_pull(queue, 1 << 63, &mut pulled, alloc),
        dmc_queue_remove(queue, 1, &mut first, alloc),
        dmc_queue_cancel(queue, 1, 1, 2, &mut first, alloc),
        dmc_queue_clean(queue, 1 << 63, &mut first, &mut second, alloc),
        dmc_queue_counts(queue, &mut first, &mut second, alloc),
    ]
}

/// The codes of a queue that was never made, of one that was freed, of a tracker, and of making one twice.
#[test]
fn held_or_not(rt: HostRuntime) -> Result<(), Fail> {
    let alloc = rt.alloc();
    let mut queue = Handle::none();
    let before = none_held(&mut queue, alloc);
    dmc_queue_free(&mut queue, alloc);
    let made = dmc_queue_new(&mut queue, &TICKS, alloc);
    let wrong = DmcConfig {
        hz: 0,
        shares: 9,
        ..TICKS
    };
    let again = dmc_queue_new(&mut queue, &wrong, alloc);
    let no_tracker = dmc_tracker_respond(&mut queue, 0, 9, 0, alloc);
    dmc_queue_free(&mut queue, alloc);
    let after = none_held(&mut queue, alloc);
    let tracker = dmc_tracker_new(&mut queue, 1, 1, 0, alloc);
    let confused = none_held(&mut queue, alloc);
    queue.end(alloc);
    assert_eq!(rt; before, [2; 8]);
    assert_eq!(rt; after, [2; 8]);
    assert_eq!(rt; confused, [2; 8]);
    let codes = [not_memory(made)?, again, no_tracker, not_memory(tracker)?];
    assert_eq!(rt; codes, [0, 3, 2, 0]);
    Ok(())
}

/// The code of a queue that is asked for.
fn made(config: DmcConfig, alloc: Global) -> u32 {
    let mut queue = Handle::none();
    let code = dmc_queue_new(&mut queue, &config, alloc);
    queue.end(alloc);
    code
}

/// Numbers that name nothing, a threshold where adds are not refused at the limit, and one that is past 2^62.
#[test]
fn bad_numbers(rt: HostRuntime) {
    let numbers = [
        (2, 0, 0, 0),
        (0, 3, 0, 0),
        (0, 0, 2, 0),
        (0, 0, 0, 1),
        (0, 1, 0, 1),
        (0, 2, 0, (1 << 62) + 1),
    ];
    for (tag_kind, at_limit, shares, threshold) in numbers {
        let config = DmcConfig {
            tag_kind,
            at_limit,
            shares,
            threshold,
            ..TICKS
        };
        let code = made(config, rt.alloc());
        assert_eq!(rt; code, 13);
    }
}

/// A configuration out of its limits.
#[test]
fn bad_configs(rt: HostRuntime) {
    let limits = [
        (0, 1, 1),
        (5_000_000_000, 1, 1),
        (1000, 2, 1),
        (1000, 1, 1 << 63),
    ];
    for (hz, idle_age, erase_age) in limits {
        let config = DmcConfig {
            hz,
            idle_age,
            erase_age,
            ..RATIOS
        };
        let code = made(config, rt.alloc());
        assert_eq!(rt; code, 13);
    }
}

/// The values in their order, and what a queue of ticks refuses.
#[test]
fn refused_values(rt: HostRuntime) -> Result<(), Fail> {
    let lines = [
        Client(1, 0, 1, 0, 0),
        Client(1, 0, 0, 0, (1 << 62) + 1),
        Client(1, 0, 0, 0, 0),
        Client(1, 3, 3, 3, 0),
        Client(2, 3, 3, 3, 0),
        Client(2, 10, 3, 3, 0),
        Client(2, 10, 1, 3, 0),
        Update(2, 3, 0, 3, (1 << 62) + 1),
        Update(2, 3, 0, 3, 0),
        Update(2, 3, 1, 3, 0),
        AddOfCost(2, 1, 0, 1, 0, (1 << 62) + 1),
        AddOfCost(2, 1, 0, 1, 0, 0),
        AddOfCost(2, 1, 0, 0, 0, 0),
        Add(2, 1, 0, 0, 0),
        Pull((1 << 62) + 1),
        Clean((1 << 62) + 1),
        Line::Drop(2),
        Add(1, 1, 0, 0, 0),
        Pull(1 << 62),
    ];
    let written = replies(rt.alloc(), TICKS, &lines)?;
    assert_eq!(rt;
        written.as_str(),
        "ok; code 10; code 12; code 20; code 22; code 23; code 24; code 10; code 12; code 21; code 10; code 11; code 16; code 21; code 10; code 10; code 21; tags - 0 0; grant 1 1 priority"
    );
    Ok(())
}

/// A counting that is none, before a client that is none.
#[test]
fn refused_cancels(rt: HostRuntime) -> Result<(), Fail> {
    let lines = [
        Client(1, 0, 1, 0, 0),
        Add(1, 7, 1, 1, 0),
        Cancel(2, 7, 2),
        Cancel(2, 7, u32::MAX),
        Cancel(2, 7, 1),
        Cancel(2, 7, 0),
        Cancel(1, 7, 2),
        Cancel(1, 8, 1),
        Cancel(1, 7, 0),
        Cancel(1, 7, 1),
    ];
    let written = replies(rt.alloc(), TICKS, &lines)?;
    assert_eq!(rt;
        written.as_str(),
        "ok; tags - 0 1000; code 13; code 13; code 21; code 21; code 13; dropped 0; dropped 1; dropped 0"
    );
    Ok(())
}

/// A moment past 2^64: in fractions the least whole number that is not before the tag.
#[test]
fn far_future(rt: HostRuntime) -> Result<(), Fail> {
    let far = [
        Client(1, 0, 1, 1, 0),
        Add(1, 1, u32::MAX, 0, 0),
        Add(1, 2, u32::MAX, 0, 0),
        Pull(0),
    ];
    let fine = DmcConfig {
        hz: 1_000_000_000,
        ..RATIOS
    };
    let written = replies(rt.alloc(), fine, &far)?;
    assert_eq!(rt;
        written.as_str(),
        "ok; tags - 4294967295000000000 4294967295000000000; tags - 8589934590000000000 8589934590000000000; future 4294967295000000000"
    );
    Ok(())
}

/// The code of a failed allocation, which a test with ample memory does not meet.
#[test]
fn memory_code(rt: HostRuntime) -> Result<(), Fail> {
    let refused: Result<(), Fault> = Err(Fault::Memory);
    assert_eq!(rt; code_of(&refused), 1);
    Ok(())
}

/// Fills a queue with clients and requests, and answers the codes of one more of each, then the counts.
fn fill_queue(queue: &mut Handle, alloc: Global) -> Result<[u32; 8], AllocError> {
    let mut tags = no_tags();
    let mut wrong = not_memory(dmc_queue_new(queue, &TICKS, alloc))?;
    for client in 0..65_536 {
        wrong |= not_memory(dmc_queue_register(queue, client, 0, 1, 0, 0, alloc))?;
    }
    let clients_full = dmc_queue_register(queue, 65_536, 0, 1, 0, 0, alloc);
    for token in 0..1_048_576 {
        wrong |= not_memory(dmc_queue_add(queue, 0, token, 0, 0, 1, 0, &mut tags, alloc))?;
    }
    let queue_full = dmc_queue_add(queue, 0, 0, 0, 0, 1, 0, &mut tags, alloc);
    let (mut clients, mut requests) = (9, 9);
    let counted = dmc_queue_counts(queue, &mut clients, &mut requests, alloc);
    let mut pulled = no_pull();
    let pull = dmc_queue_pull(queue, 0, &mut pulled, alloc);
    let accepted = dmc_queue_add(queue, 0, 0, 0, 0, 1, 0, &mut tags, alloc);
    Ok([
        wrong,
        clients_full,
        queue_full,
        counted,
        clients,
        requests,
        pull,
        accepted,
    ])
}

#[test]
fn queue_limits(rt: HostRuntime) -> Result<(), Fail> {
    let mut queue = Handle::none();
    let codes = fill_queue(&mut queue, rt.alloc());
    queue.end(rt.alloc());
    let codes = codes?;
    assert_eq!(rt; codes, [0, 25, 26, 0, 65_536, 1_048_576, 0, 0]);
    Ok(())
}
