//! Lines and replies, one of each kind, and the faults of scripts.

use crate::same::assert_same;
use dmc_tag::reply::{Reply, Tags};
use dmc_text::cause::LineCause;
use dmc_text::line::{Line, read_line};
use dmc_text::reply::read_reply;
use dmc_text::write::write_reply;
use dmc_tick::tick::TickTag;
use dmc_types::command::Command;
use dmc_types::config::{AtLimit, Counting, PhaseType, QueueConfig, Shares};
use dmc_types::cost::Cost;
use dmc_types::ids::{ClientId, Token};
use dmc_types::info::ClientInfo;
use dmc_types::moment::Moment;
use dmc_types::params::ReqParams;
use dmc_types::refusal::{Field, Refusal, ValueFault};
use std::process::Abort;
use std::test::Fail;

/// The meaning of a line.
fn said(line: &[u8], has_config: bool) -> Result<Line, LineCause> {
    read_line(line, has_config)
}

/// A line after the `hz` line has this meaning.
fn says(rt: &impl Abort, line: &[u8], wanted: Result<Line, LineCause>) {
    assert_same(rt, &said(line, true), &wanted);
}

/// A line with no `hz` line before it has this meaning.
fn says_first(rt: &impl Abort, line: &[u8], wanted: Result<Line, LineCause>) {
    assert_same(rt, &said(line, false), &wanted);
}

/// The reply of a text, in ticks.
fn reply_of(text: &[u8]) -> Result<Reply<TickTag>, LineCause> {
    read_reply(text)
}

/// A text is read as this reply.
fn reads(rt: &impl Abort, text: &[u8], wanted: Result<Reply<TickTag>, LineCause>) {
    assert_same(rt, &reply_of(text), &wanted);
}

#[test]
fn script_faults(rt: HostRuntime) -> Result<(), Fail> {
    says(&rt, [b' '; 256].as_slice(), Ok(Line::Skip));
    says(&rt, [b' '; 257].as_slice(), Err(LineCause::Bytes));
    says(&rt, b"pull 0\r", Err(LineCause::Bytes));
    says(&rt, b"pull 01", Err(LineCause::Number));
    says(&rt, b"pull 18446744073709551616", Err(LineCause::Number));
    says(&rt, b"add 1 4294967296 0 0 0", Err(LineCause::Number));
    says(&rt, b"hz 1000", Err(LineCause::Hz));
    says_first(&rt, b"hz 1000 100", Err(LineCause::Words));
    says_first(&rt, b"hz 0", Err(LineCause::Hz));
    says_first(&rt, b"hz 1000 2 1", Err(LineCause::Hz));
    Ok(())
}

#[test]
fn hz_lines(rt: HostRuntime) -> Result<(), Fail> {
    let never = 1 << 62;
    let waits = QueueConfig::new(1000, never, never, AtLimit::Wait)?;
    let allows = QueueConfig::new(1000, never, never, AtLimit::Allow)?;
    let ages = QueueConfig::new(1000, 1, 2, AtLimit::Wait)?;
    let both = QueueConfig::new(1000, 1, 2, AtLimit::Allow)?;
    says_first(&rt, b"  hz   1000 ", Ok(Line::Config(waits)));
    says_first(&rt, b"hz 1000 allow", Ok(Line::Config(allows)));
    says_first(&rt, b"hz 1000 1 2", Ok(Line::Config(ages)));
    says_first(&rt, b"hz 1000 1 2 allow", Ok(Line::Config(both)));
    says_first(&rt, b"hz 1000 1 2 wait", Err(LineCause::Words));
    says_first(&rt, b"hz 1000 5 allow", Err(LineCause::Number));
    says_first(
        &rt,
        b"hz 1000 virtual",
        Ok(Line::Config(waits.with_shares(Shares::Virtual))),
    );
    says_first(
        &rt,
        b"hz 1000 allow virtual",
        Ok(Line::Config(allows.with_shares(Shares::Virtual))),
    );
    says_first(
        &rt,
        b"hz 1000 1 2 virtual",
        Ok(Line::Config(ages.with_shares(Shares::Virtual))),
    );
    says_first(
        &rt,
        b"hz 1000 1 2 allow virtual",
        Ok(Line::Config(both.with_shares(Shares::Virtual))),
    );
    says_first(&rt, b"hz 1000 virtual allow", Err(LineCause::Number));
    says_first(&rt, b"hz 1000 1 2 virtual allow", Err(LineCause::Words));
    says_first(&rt, b"hz 1000 5 virtual", Err(LineCause::Words));
    says_first(&rt, b"hz 1000 virtual virtual", Err(LineCause::Words));
    says_first(&rt, b"hz virtual", Err(LineCause::Number));
    says_first(&rt, b"hz 5000000000", Err(LineCause::Hz));
    says_first(&rt, b"hzz 1000", Err(LineCause::Hz));
    says_first(&rt, b"pull 0", Err(LineCause::Hz));
    says_first(&rt, b"# said", Ok(Line::Skip));
    Ok(())
}

#[test]
fn commands(rt: HostRuntime) -> Result<(), Fail> {
    let client = ClientId(1);
    let at = Moment::new(5)?;
    let info = ClientInfo::new(Some(10), 2, None)?;
    let params = ReqParams::new(3, 2)?;
    let token = Token(7);
    says(
        &rt,
        b"client 1 10 2 - 5",
        Ok(Line::Ask(Command::Register { client, info, at })),
    );
    says(
        &rt,
        b"update 1 10 2 - 5",
        Ok(Line::Ask(Command::Update { client, info, at })),
    );
    says(
        &rt,
        b"add 1 7 3 2 5",
        Ok(Line::Ask(Command::Add {
            client,
            token,
            params,
            at,
        })),
    );
    says(&rt, b"pull 5", Ok(Line::Ask(Command::Pull { at })));
    says(&rt, b"drop 1", Ok(Line::Ask(Command::Remove { client })));
    says(&rt, b"clean 5", Ok(Line::Ask(Command::Clean { at })));
    Ok(())
}

/// The line of a cancel of token 7 of client 1.
fn cancels(rt: &impl Abort, line: &[u8], counting: Counting) {
    let cancel = Command::Cancel {
        client: ClientId(1),
        token: Token(7),
        counting,
    };
    says(rt, line, Ok(Line::Ask(cancel)));
}

#[test]
fn cancel_lines(rt: HostRuntime) -> Result<(), Fail> {
    cancels(&rt, b"cancel 1 7 all", Counting::All);
    cancels(&rt, b" cancel  1 7 others ", Counting::Others);
    says(&rt, b"cancel 1 7", Err(LineCause::Words));
    says(&rt, b"cancel 1 7 other", Err(LineCause::Words));
    says(&rt, b"cancel 1 7 all 0", Err(LineCause::Words));
    says(&rt, b"cancel 1 all all", Err(LineCause::Number));
    Ok(())
}

#[test]
fn refused_values(rt: HostRuntime) -> Result<(), Fail> {
    says(
        &rt,
        b"pull 4611686018427387905",
        Ok(Line::Value(ValueFault::Moment)),
    );
    says(&rt, b"add 1 1 1 2 0", Ok(Line::Value(ValueFault::Params)));
    says(&rt, b"client 2 0 1 - 0", Ok(Line::Value(ValueFault::Rate)));
    says(
        &rt,
        b"add 1 1 1 2 4611686018427387905",
        Ok(Line::Value(ValueFault::Moment)),
    );
    says(&rt, b"add 1 7 1", Err(LineCause::Words));
    says(&rt, b"pull 0 0", Err(LineCause::Words));
    says(&rt, b"push 01", Err(LineCause::Words));
    Ok(())
}

#[test]
fn tags(rt: HostRuntime) -> Result<(), Fail> {
    let p = TickTag::new(-1000).ok_or("tick")?;
    let l = TickTag::new(0).ok_or("tick")?;
    let reply = Reply::Tagged(Tags { r: None, l, p });
    let mut out = Vec::new(rt.alloc());
    write_reply(&reply, &mut out)?;
    assert_same(&rt, &out.as_slice(), &b"tags - 0 -1000".as_slice());
    reads(&rt, out.as_slice(), Ok(reply));
    reads(&rt, b"tags - -0 0", Err(LineCause::Number));
    reads(&rt, b"tags - 0 1000/3", Err(LineCause::Number));
    reads(&rt, b"tags 0 0", Err(LineCause::Words));
    Ok(())
}

#[test]
fn grants(rt: HostRuntime) -> Result<(), Fail> {
    let reply: Reply<TickTag> = Reply::Granted {
        client: ClientId(1),
        token: Token(7),
        phase: PhaseType::Priority,
        cost: Cost::ONE,
        beyond: true,
    };
    let mut out = Vec::new(rt.alloc());
    write_reply(&reply, &mut out)?;
    assert_same(
        &rt,
        &out.as_slice(),
        &b"grant 1 7 priority beyond".as_slice(),
    );
    reads(&rt, out.as_slice(), Ok(reply));
    reads(&rt, b"grant 1 7 reservation beyond", Err(LineCause::Words));
    reads(&rt, b"future 334", Ok(Reply::Later(334)));
    reads(
        &rt,
        b"refused inexact weight",
        Ok(Reply::Refused(Refusal::Inexact(Field::Weight))),
    );
    reads(&rt, b"refused moment", Err(LineCause::Words));
    reads(
        &rt,
        b"cleaned 1 2",
        Ok(Reply::Cleaned {
            idled: 1,
            erased: 2,
        }),
    );
    Ok(())
}
