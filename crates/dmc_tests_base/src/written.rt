//! Lines that are written, one of each kind, and read again.
use crate::same::assert_same;
use dmc_tag::event::Event;
use dmc_tag::reply::{Reply, Tags};
use dmc_text::cause::LineCause;
use dmc_text::event_line::{EventLine, read_event_line};
use dmc_text::line::{Line, read_line};
use dmc_text::tag::TagText;
use dmc_text::write_line::{write_command, write_config, write_event, write_header};
use dmc_tick::tick::TickTag;
use dmc_types::command::Command;
use dmc_types::config::{AtLimit, Counting, PhaseType, QueueConfig, Shares};
use dmc_types::cost::Cost;
use dmc_types::ids::{ClientId, ServerId, Token, WorkerId};
use dmc_types::info::ClientInfo;
use dmc_types::moment::Moment;
use dmc_types::params::ReqParams;
use dmc_types::refusal::Refusal;
use std::process::Abort;
use std::test::Fail;

/// More bytes than any of these lines has.
const ROOM: usize = 256;

/// A command has this line, which is read as the command.
fn is_written<R: AllocGlobal + Abort>(rt: &R, command: Command, line: &[u8]) -> Result<(), Fail> {
    let mut out = Vec::with_capacity(rt.alloc(), ROOM)?;
    write_command(&command, &mut out)?;
    assert_same(rt, &out.as_slice(), &line);
    assert_same(rt, &read_line(line, true), &Ok(Line::Ask(command)));
    Ok(())
}

#[test]
fn commands_written(rt: HostRuntime) -> Result<(), Fail> {
    let client = ClientId(u32::MAX);
    let at = Moment::new(1 << 62)?;
    let info = ClientInfo::new(Some(10), 2, None)?;
    let params = ReqParams::new(3, 2)?;
    is_written(
        &rt,
        Command::Register { client, info, at },
        b"client 4294967295 10 2 - 4611686018427387904",
    )?;
    is_written(
        &rt,
        Command::Update { client, info, at },
        b"update 4294967295 10 2 - 4611686018427387904",
    )?;
    let add = Command::Add {
        client,
        token: Token(0),
        params,
        at,
    };
    is_written(&rt, add, b"add 4294967295 0 3 2 4611686018427387904")?;
    let add_of_cost = Command::Add {
        client,
        token: Token(0),
        params: params.with_cost(Cost::new(u32::MAX)?),
        at,
    };
    is_written(
        &rt,
        add_of_cost,
        b"add 4294967295 0 3 2 4611686018427387904 cost 4294967295",
    )?;
    is_written(&rt, Command::Pull { at }, b"pull 4611686018427387904")?;
    is_written(&rt, Command::Remove { client }, b"drop 4294967295")?;
    is_written(&rt, Command::Clean { at }, b"clean 4611686018427387904")
}

/// A cancel of the greatest token of client 1.
fn cancel(counting: Counting) -> Command {
    Command::Cancel {
        client: ClientId(1),
        token: Token(u32::MAX),
        counting,
    }
}

#[test]
fn cancels_written(rt: HostRuntime) -> Result<(), Fail> {
    is_written(&rt, cancel(Counting::All), b"cancel 1 4294967295 all")?;
    is_written(&rt, cancel(Counting::Others), b"cancel 1 4294967295 others")?;
    is_event(
        &rt,
        cancel(Counting::Others),
        Reply::Removed(2),
        b"7 cancel 1 4294967295 others = dropped 2",
    )
}

/// A configuration has this line, which is read as the configuration.
fn is_config<R: AllocGlobal + Abort>(
    rt: &R,
    idle_age: u64,
    at_limit: AtLimit,
    shares: Shares,
    line: &[u8],
) -> Result<(), Fail> {
    let config = QueueConfig::new(1000, idle_age, 1 << 62, at_limit)?.with_shares(shares);
    let mut out = Vec::with_capacity(rt.alloc(), ROOM)?;
    write_config(config, &mut out)?;
    assert_same(rt, &out.pop(), &Some(b'\n'));
    assert_same(rt, &out.as_slice(), &line);
    assert_same(rt, &read_line(line, false), &Ok(Line::Config(config)));
    Ok(())
}

#[test]
fn configurations_written(rt: HostRuntime) -> Result<(), Fail> {
    is_config(
        &rt,
        1,
        AtLimit::Wait,
        Shares::Clock,
        b"hz 1000 1 4611686018427387904",
    )?;
    is_config(
        &rt,
        1,
        AtLimit::Wait,
        Shares::Virtual,
        b"hz 1000 1 4611686018427387904 virtual",
    )?;
    is_config(
        &rt,
        1 << 62,
        AtLimit::Allow,
        Shares::Clock,
        b"hz 1000 4611686018427387904 4611686018427387904 allow",
    )?;
    is_config(
        &rt,
        1 << 62,
        AtLimit::Allow,
        Shares::Virtual,
        b"hz 1000 4611686018427387904 4611686018427387904 allow virtual",
    )?;
    is_config(
        &rt,
        1,
        AtLimit::Reject { threshold: 0 },
        Shares::Clock,
        b"hz 1000 1 4611686018427387904 reject 0",
    )?;
    is_config(
        &rt,
        1 << 62,
        AtLimit::Reject { threshold: 1 << 62 },
        Shares::Virtual,
        b"hz 1000 4611686018427387904 4611686018427387904 reject 4611686018427387904 virtual",
    )
}

/// What a line of an event text has to be.
fn event_of<T: TagText>(line: &[u8]) -> Result<Option<Event<T>>, LineCause> {
    match read_event_line(line, true)? {
        EventLine::Event(event) => Ok(Some(event)),
        _ => Ok(None),
    }
}

/// An event of worker 7 has this line, which is read as the event.
fn is_event<R: AllocGlobal + Abort>(
    rt: &R,
    command: Command,
    reply: Reply<TickTag>,
    line: &[u8],
) -> Result<(), Fail> {
    let event = Event {
        worker: WorkerId(7),
        command,
        reply,
    };
    let mut out = Vec::with_capacity(rt.alloc(), ROOM)?;
    write_event(&event, &mut out)?;
    assert_same(rt, &out.pop(), &Some(b'\n'));
    assert_same(rt, &out.as_slice(), &line);
    assert_same(rt, &event_of(line), &Ok(Some(event)));
    Ok(())
}

/// The grant of token 11 of client 1, beyond its limit.
fn granted(cost: Cost) -> Reply<TickTag> {
    Reply::Granted {
        client: ClientId(1),
        token: Token(11),
        phase: PhaseType::Priority,
        cost,
        beyond: true,
    }
}

#[test]
fn events_written(rt: HostRuntime) -> Result<(), Fail> {
    let at = Moment::new(5)?;
    let client = ClientId(1);
    let add = Command::Add {
        client,
        token: Token(11),
        params: ReqParams::new(3, 2)?,
        at,
    };
    let tag = TickTag::new(-1000).ok_or("tick")?;
    let tags = Reply::Tagged(Tags {
        r: None,
        l: tag,
        p: tag,
    });
    is_event(&rt, add, tags, b"7 add 1 11 3 2 5 = tags - -1000 -1000")?;
    let pull = Command::Pull { at };
    let granted = granted(Cost::ONE);
    is_event(&rt, pull, granted, b"7 pull 5 = grant 1 11 priority beyond")?;
    is_event(&rt, pull, Reply::Later(50), b"7 pull 5 = future 50")
}

#[test]
fn costs_written(rt: HostRuntime) -> Result<(), Fail> {
    let at = Moment::new(5)?;
    let cost = Cost::new(4)?;
    let add = Command::Add {
        client: ClientId(1),
        token: Token(11),
        params: ReqParams::new(3, 2)?.with_cost(cost),
        at,
    };
    let full = Reply::Refused(Refusal::QueueFull);
    is_event(&rt, add, full, b"7 add 1 11 3 2 5 cost 4 = refused full")?;
    is_event(
        &rt,
        Command::Pull { at },
        granted(cost),
        b"7 pull 5 = grant 1 11 priority beyond cost 4",
    )
}

#[test]
fn a_header_written(rt: HostRuntime) -> Result<(), Fail> {
    let mut out = Vec::with_capacity(rt.alloc(), ROOM)?;
    write_header(ServerId(3), 1 << 62, &mut out)?;
    assert_same(&rt, &out.pop(), &Some(b'\n'));
    let line = b"# server 3 first 4611686018427387904".as_slice();
    assert_same(&rt, &out.as_slice(), &line);
    assert_same(&rt, &read_line(line, true), &Ok(Line::Skip));
    Ok(())
}
