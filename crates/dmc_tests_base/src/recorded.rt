//! A queue's history returns the events that were put into it, whatever their form.
use crate::same::assert_same;
use dmc_check::check::{Verdict, check};
use dmc_queue_history::history::EventHistory;
use dmc_tag::event::Event;
use dmc_tag::reply::{Reply, Tags};
use dmc_tag::tag::Tag;
use dmc_tick::tick::TickTag;
use dmc_types::command::Command;
use dmc_types::config::{AtLimit, PhaseType, QueueConfig};
use dmc_types::cost::Cost;
use dmc_types::ids::{ClientId, Token, WorkerId};
use dmc_types::info::ClientInfo;
use dmc_types::moment::Moment;
use dmc_types::params::ReqParams;
use std::process::Abort;
use std::test::Fail;

/// The event of a command of worker 3 at moment 0, with its reply.
fn answered(command: Command, reply: Reply<TickTag>) -> Event<TickTag> {
    Event {
        worker: WorkerId(3),
        command,
        reply,
    }
}

fn registered(
    client: u32,
    reservation: Option<u32>,
    limit: Option<u32>,
) -> Result<Event<TickTag>, Fail> {
    let command = Command::Register {
        client: ClientId(client),
        info: ClientInfo::new(reservation, 1, limit)?,
        at: Moment::zero(),
    };
    Ok(answered(command, Reply::Registered))
}

/// A first request of this cost, whose tags are all 0.
fn queued(
    client: u32,
    token: u32,
    cost: Cost,
    has_reservation: bool,
) -> Result<Event<TickTag>, Fail> {
    let zero = TickTag::of_moment(Moment::zero());
    let command = Command::Add {
        client: ClientId(client),
        token: Token(token),
        params: ReqParams::new(0, 0)?.with_cost(cost),
        at: Moment::zero(),
    };
    let tags = Tags {
        r: has_reservation.then_some(zero),
        l: zero,
        p: zero,
    };
    Ok(answered(command, Reply::Tagged(tags)))
}

/// A first request of client 3, with a delta of 1. A limit of 10 makes its tag 100, and the weight its own 1000.
fn queued_ahead(token: u32) -> Result<Event<TickTag>, Fail> {
    let command = Command::Add {
        client: ClientId(3),
        token: Token(token),
        params: ReqParams::new(1, 0)?,
        at: Moment::zero(),
    };
    let tags = Tags {
        r: None,
        l: TickTag::of_moment(Moment::new(100)?),
        p: TickTag::of_moment(Moment::new(1000)?),
    };
    Ok(answered(command, Reply::Tagged(tags)))
}

fn granted(client: u32, token: u32, cost: Cost, phase: PhaseType) -> Event<TickTag> {
    let reply = Reply::Granted {
        client: ClientId(client),
        token: Token(token),
        phase,
        cost,
        beyond: false,
    };
    answered(Command::Pull { at: Moment::zero() }, reply)
}

/// Puts an event into the history, and reads it again.
fn is_kept(history: &mut EventHistory<TickTag>, event: Event<TickTag>) -> Result<bool, Fail> {
    history.reserve_one()?;
    history.push_reserved(event);
    let last = history.len() - 1;
    Ok(history.at(last) == Some(event) && history.at(last + 1).is_none())
}

/// Puts the events of a client with a reservation, of one without, and of one with a limit into the history, one after the
/// other.
fn fill(rt: &impl Abort, history: &mut EventHistory<TickTag>) -> Result<(), Fail> {
    let (four, most) = (Cost::new(4)?, Cost::new(u32::MAX)?);
    let nothing = answered(Command::Pull { at: Moment::zero() }, Reply::Nothing);
    for event in [
        registered(1, Some(10), None)?,
        registered(2, None, None)?,
        queued(1, 11, four, true)?,
        queued(2, 21, most, false)?,
        granted(1, 11, four, PhaseType::Reservation),
        granted(2, 21, most, PhaseType::Priority),
        nothing,
        registered(3, None, Some(10))?,
        queued_ahead(31)?,
    ] {
        assert!(rt; is_kept(history, event)?);
    }
    Ok(())
}

/// Fills a history, so that it takes no more events, and checks it.
fn fill_and_check<R: AllocGlobal + Abort>(
    rt: &R,
    config: QueueConfig,
    history: &mut EventHistory<TickTag>,
) -> Result<Verdict, Fail> {
    fill(rt, history)?;
    assert!(rt; history.reserve_one().is_err());
    Ok(check(rt.alloc(), config, history)?)
}

#[test]
fn a_recorded_history(rt: HostRuntime) -> Result<(), Fail> {
    let config = QueueConfig::new(1000, 1 << 62, 1 << 62, AtLimit::Wait)?;
    let mut history = EventHistory::new(rt.alloc(), 9)?;
    let verdict = fill_and_check(&rt, config, &mut history)?;
    assert_same(&rt, &verdict, &Verdict::Replays);
    Ok(())
}
