//! Commands to a server's queue at the cluster core, and the core's refusals.
use crate::cores::{
    ONE, ZERO, arrive, arrives, clean, end, pull, refuses, refuses_unknown, remove, replies,
    respond, stamp, stamps, two_clients, update,
};
use dmc_core::event::CoreFault;
use dmc_tag::reply::Reply;
use dmc_types::config::PhaseType;
use dmc_types::ids::{ClientId, ServerId};
use dmc_types::info::ClientInfo;
use std::test::Fail;

// An update and a removal are commands to the queue, and their refusals are the queue's.
#[test]
fn commands_to_a_queue(rt: HostRuntime) -> Result<(), Fail> {
    let fast = ClientInfo::new(Some(20), 1, None)?;
    let three = ClientId(3);
    let mut core = two_clients(rt.alloc())?;
    replies(&rt, &mut core, update(ZERO, ONE, fast), Reply::Updated);
    stamps(&rt, &mut core, ONE, ZERO, 1, (0, 0));
    arrives(&rt, &mut core, 0, (Some(0), 0, 0));
    replies(&rt, &mut core, remove(ZERO, ONE), Reply::Removed(1));
    refuses_unknown(&rt, &mut core, remove(ZERO, three));
    refuses_unknown(&rt, &mut core, update(ZERO, three, fast));
    end(core)
}

// The first cause is reported.
#[test]
fn unknown_names(rt: HostRuntime) -> Result<(), Fail> {
    let (three, past) = (ClientId(3), ServerId(1));
    let phase = PhaseType::Priority;
    let info = ClientInfo::new(None, 1, None)?;
    let mut core = two_clients(rt.alloc())?;
    for event in [
        stamp(three, past, 1),
        arrive(three, past, 0),
        respond(three, past, phase),
    ] {
        refuses(&rt, &mut core, event, CoreFault::NoClient);
    }
    for event in [
        stamp(ONE, past, 1),
        arrive(ONE, past, 0),
        respond(ONE, past, phase),
        pull(past, 0),
        update(past, three, info),
        remove(past, three),
        clean(past, 0),
    ] {
        refuses(&rt, &mut core, event, CoreFault::NoServer);
    }
    end(core)
}
