//! Requests of different costs at the cluster core.
use crate::cores::{
    Core, ONE, ZERO, answers, answers_at_once, arrives, completions, end, granted_of_cost, open,
    pull, replies, respond, respond_of_cost, stamp_of_cost,
};
use crate::same::assert_same;
use dmc_core::event::{CoreFault, CoreReply};
use dmc_types::config::PhaseType;
use dmc_types::cost::Cost;
use dmc_types::params::ReqParams;
use std::process::Abort;
use std::test::Fail;

// Client 1 stamps a request of this cost to server 0, and it arrives.
fn sends(rt: &impl Abort, core: &mut Core, token: u32, cost: Cost) {
    let event = stamp_of_cost(ONE, ZERO, token, cost);
    let params = ReqParams::new(0, 0).expect(rt, "rho is at most delta");
    let stamped = CoreReply::Stamped(params.with_cost(cost));
    answers(rt, core, event, Ok(stamped));
    arrives(rt, core, 0, (None, 0, 0));
}

// Grants are responded in any order, each once and with its own cost.
#[test]
fn costs_in_the_other_order(rt: HostRuntime) -> Result<(), Fail> {
    let (two, three, four) = (Cost::new(2)?, Cost::new(3)?, Cost::new(4)?);
    let mut core = open(rt.alloc(), "servers = 1", "")?;
    for (token, cost) in [(7, two), (8, three)] {
        sends(&rt, &mut core, token, cost);
    }
    for (token, cost) in [(7, two), (8, three)] {
        replies(&rt, &mut core, pull(ZERO, 0), granted_of_cost(token, cost));
    }
    let no_grant = Err(CoreFault::NoGrant);
    for (cost, answer) in [
        (four, no_grant),
        (three, Ok(CoreReply::Counted)),
        (three, no_grant),
        (two, Ok(CoreReply::Counted)),
    ] {
        let event = respond_of_cost(ONE, ZERO, PhaseType::Priority, cost);
        answers(&rt, &mut core, event, answer);
    }
    assert_same(&rt, &completions(&core), &Some((5, 0)));
    end(core)
}

// How many requests are granted before the first response.
const GRANTS: u32 = 40;

// A pull and a response need no memory, whatever the number of grants that wait.
#[test]
fn grants_without_memory(rt: HostRuntime) -> Result<(), Fail> {
    let mut core = open(rt.alloc(), "servers = 1", "")?;
    for token in 0..GRANTS {
        sends(&rt, &mut core, token, Cost::ONE);
    }
    for token in 0..GRANTS {
        let granted = CoreReply::Served(granted_of_cost(token, Cost::ONE));
        answers_at_once(&rt, &mut core, pull(ZERO, 0), granted);
    }
    for _ in 0..GRANTS {
        let event = respond(ONE, ZERO, PhaseType::Priority);
        answers_at_once(&rt, &mut core, event, CoreReply::Counted);
    }
    end(core)
}
