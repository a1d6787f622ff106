//! Requests that are taken back in a cluster core.
use crate::cores::{
    Core, ONE, ZERO, answers_at_once, arrive, arrives, clean, end, grants, limited, open, pull,
    refuses, refuses_unknown, replies, stamp, stamps, tick,
};
use dmc_core::event::{CoreEvent, CoreFault, CoreReply};
use dmc_tag::reply::{Reply, Tags};
use dmc_tick::tick::TickTag;
use dmc_types::config::PhaseType;
use dmc_types::ids::{ClientId, ServerId, Token};
use dmc_types::params::ReqParams;
use std::alloc::Global;
use std::process::Abort;
use std::test::Fail;

fn cancel(server: ServerId, client: ClientId, token: u32) -> CoreEvent {
    CoreEvent::Cancel {
        server,
        client,
        token: Token(token),
    }
}

// Server 0 takes out this number of requests of client 1 with a token.
fn takes_out(rt: &impl Abort, core: &mut Core, token: u32, count: u32) {
    replies(rt, core, cancel(ZERO, ONE, token), Reply::Removed(count));
}

// Client 1 has a limit of 10, and its stamps count their own costs.
fn with_own_costs(alloc: Global) -> Result<Core, Fail> {
    open(alloc, "servers = 1\ncounting = \"others\"", "limit = 10")
}

// A request of client 1 is stamped, and arrives at server 0 with these tags: limit and weight.
fn sends(rt: &impl Abort, core: &mut Core, token: u32, ticks: u32, tags: (u32, u32)) {
    stamps(rt, core, ONE, ZERO, token, (1, 1));
    arrives(rt, core, ticks, (None, tags.0, tags.1));
}

// Three requests arrive at 0, and a fourth at 250.
fn sends_four(rt: &impl Abort, core: &mut Core) {
    sends(rt, core, 11, 0, (100, 1000));
    sends(rt, core, 12, 0, (200, 2000));
    sends(rt, core, 13, 0, (300, 3000));
    sends(rt, core, 14, 250, (400, 4000));
}

// What a request was charged is given back to those behind it, but none falls below the moment that it came at.
#[test]
fn cancelled_events(rt: HostRuntime) -> Result<(), Fail> {
    let mut core = with_own_costs(rt.alloc())?;
    sends_four(&rt, &mut core);
    takes_out(&rt, &mut core, 12, 1);
    grants(&rt, &mut core, 100, 11, PhaseType::Priority);
    grants(&rt, &mut core, 200, 13, PhaseType::Priority);
    replies(&rt, &mut core, pull(ZERO, 299), Reply::Later(300));
    takes_out(&rt, &mut core, 14, 1);
    sends(&rt, &mut core, 15, 299, (350, 3000));
    end(core)
}

// If all completions are counted, the one that a request counted is not given back when that request is taken back.
#[test]
fn cancelled_completions(rt: HostRuntime) -> Result<(), Fail> {
    let mut core = open(rt.alloc(), "servers = 1", "limit = 20")?;
    limited(&rt, &mut core);
    stamps(&rt, &mut core, ONE, ZERO, 3, (0, 0));
    arrives(&rt, &mut core, 0, (None, 50, 1000));
    takes_out(&rt, &mut core, 2, 1);
    replies(&rt, &mut core, pull(ZERO, 0), Reply::Later(50));
    grants(&rt, &mut core, 50, 3, PhaseType::Priority);
    end(core)
}

// The first cause is reported.
#[test]
fn cancelled_names(rt: HostRuntime) -> Result<(), Fail> {
    let (two, past) = (ClientId(2), ServerId(1));
    let mut core = with_own_costs(rt.alloc())?;
    for server in [ZERO, past] {
        refuses(&rt, &mut core, cancel(server, two, 11), CoreFault::NoClient);
    }
    refuses(&rt, &mut core, cancel(past, ONE, 11), CoreFault::NoServer);
    end(core)
}

// A request that is still in flight is not queued. A client that a queue erased is unknown there alone.
#[test]
fn cancels_of_nothing(rt: HostRuntime) -> Result<(), Fail> {
    let mut core = open(rt.alloc(), "servers = 1\nidle_age = 5\nerase_age = 10", "")?;
    stamps(&rt, &mut core, ONE, ZERO, 11, (0, 0));
    takes_out(&rt, &mut core, 11, 0);
    arrives(&rt, &mut core, 0, (None, 0, 0));
    takes_out(&rt, &mut core, 12, 0);
    takes_out(&rt, &mut core, 11, 1);
    let cleaned = Reply::Cleaned {
        idled: 0,
        erased: 1,
    };
    replies(&rt, &mut core, clean(ZERO, 10), cleaned);
    refuses_unknown(&rt, &mut core, cancel(ZERO, ONE, 11));
    end(core)
}

// ---- memory

// How many requests are taken back.
const CANCELS: u32 = 10_000;

// A stamp before any completion.
fn no_counts(rt: &impl Abort) -> CoreReply<TickTag> {
    CoreReply::Stamped(ReqParams::new(0, 0).expect(rt, "rho is at most delta"))
}

// The tags of a request that is charged nothing.
fn first_tags() -> CoreReply<TickTag> {
    CoreReply::Served(Reply::Tagged(Tags {
        r: None,
        l: tick(0),
        p: tick(0),
    }))
}

// A request is stamped, arrives and is taken back, and no event needs memory.
fn comes_and_goes(rt: &impl Abort, core: &mut Core, token: u32) {
    let removed = CoreReply::Served(Reply::Removed(1));
    answers_at_once(rt, core, stamp(ONE, ZERO, token), no_counts(rt));
    answers_at_once(rt, core, arrive(ONE, ZERO, 0), first_tags());
    answers_at_once(rt, core, cancel(ZERO, ONE, token), removed);
}

// Requests that are taken back leave nothing that the next ones need memory for.
#[test]
fn cancels_without_memory(rt: HostRuntime) -> Result<(), Fail> {
    let mut core = open(rt.alloc(), "servers = 1", "")?;
    stamps(&rt, &mut core, ONE, ZERO, 0, (0, 0));
    arrives(&rt, &mut core, 0, (None, 0, 0));
    takes_out(&rt, &mut core, 0, 1);
    for token in 0..CANCELS {
        comes_and_goes(&rt, &mut core, token);
    }
    end(core)
}
