//! The worked examples of event texts, each under its name, and one history.
use crate::same::assert_same;
use dmc_check::check::{Verdict, check};
use dmc_check::text::check_text;
use dmc_history::History;
use dmc_tag::event::Event;
use dmc_tag::reply::Reply;
use dmc_text::cause::LineCause;
use dmc_text::script::ScriptFault;
use dmc_text::watched::Watched;
use dmc_tick::tick::TickTag;
use dmc_types::command::Command;
use dmc_types::config::{AtLimit, QueueConfig};
use dmc_types::ids::WorkerId;
use dmc_types::moment::Moment;
use std::alloc::AllocError;
use std::process::Abort;
use std::test::Fail;

/// Checks a text, and compares all that is written and the result. An allocation failure is an error.
fn checks<T: AllocGlobal + Abort>(
    rt: &T,
    input: &[u8],
    output: &[u8],
    answer: Result<Verdict, ScriptFault>,
) -> Result<(), Fail> {
    let mut written = Watched::new(Vec::with_capacity(rt.alloc(), 32)?);
    let mut reader = Watched::new(input);
    let checked = check_text::<TickTag, _, _>(rt.alloc(), &mut reader, &mut written);
    if checked == Err(ScriptFault::Memory) {
        return Err(AllocError.into());
    }
    assert_same(rt, &checked, &answer);
    assert_same(rt, &written.stream().as_slice(), &output);
    Ok(())
}

#[test]
fn changed_grant(rt: HostRuntime) -> Result<(), Fail> {
    checks(
        &rt,
        b"hz 1000\n1 client 1 - 1 - 0 = ok\n1 client 2 - 1 - 0 = ok\n1 add 1 11 1 0 0 = tags - 0 1000\n1 add 1 12 1 0 0 = tags - 0 2000\n1 pull 0 = grant 1 11 priority\n1 add 2 21 1 0 500 = tags - 500 1000\n1 pull 500 = grant 1 12 priority\n",
        b"replays 7\n",
        Ok(Verdict::Replays),
    )?;
    checks(
        &rt,
        b"hz 1000\n1 client 1 - 1 - 0 = ok\n1 client 2 - 1 - 0 = ok\n1 add 1 11 1 0 0 = tags - 0 1000\n1 add 1 12 1 0 0 = tags - 0 2000\n1 pull 0 = grant 1 11 priority\n1 add 2 21 1 0 500 = tags - 500 1000\n1 pull 500 = grant 2 12 priority\n",
        b"differs 6\n",
        Ok(Verdict::Differs(6)),
    )
}

#[test]
fn check_texts(rt: HostRuntime) -> Result<(), Fail> {
    checks(&rt, b"hz 1000\n", b"replays 0\n", Ok(Verdict::Replays))?;
    checks(
        &rt,
        b"hz 1000\n1 pull 0 = none\n",
        b"replays 1\n",
        Ok(Verdict::Replays),
    )?;
    checks(
        &rt,
        b"hz 1000\n1 pull 0\n",
        b"",
        Err(ScriptFault::Line(2, LineCause::Words)),
    )?;
    checks(
        &rt,
        b"hz 1000\n1 add 1 1 1 2 0 = ok\n",
        b"",
        Err(ScriptFault::Line(2, LineCause::Number)),
    )?;
    // A fault after a difference is reported, and a text without an hz line is faulty.
    checks(
        &rt,
        b"hz 1000\n1 pull 0 = ok\n1 pull 0 = no",
        b"",
        Err(ScriptFault::Line(3, LineCause::Words)),
    )?;
    checks(&rt, b"", b"", Err(ScriptFault::Line(1, LineCause::Hz)))
}

#[test]
fn segments_of_a_text(rt: HostRuntime) -> Result<(), Fail> {
    checks(
        &rt,
        b"hz 1000\n# server 3 first 0\n1 pull 0 = none\n# server 3 first 1\n1 pull 5 = none\n  #  server  3 first 2",
        b"replays 2\n",
        Ok(Verdict::Replays),
    )?;
    // A segment is missing, or comes twice, or before the hz line.
    checks(
        &rt,
        b"hz 1000\n# server 3 first 1\n1 pull 0 = none\n",
        b"",
        Err(ScriptFault::Line(2, LineCause::Number)),
    )?;
    checks(
        &rt,
        b"hz 1000\n# server 3 first 0\n1 pull 0 = none\n# server 3 first 0\n1 pull 0 = none\n",
        b"",
        Err(ScriptFault::Line(4, LineCause::Number)),
    )?;
    checks(
        &rt,
        b"# server 3 first 0\nhz 1000\n",
        b"",
        Err(ScriptFault::Line(1, LineCause::Hz)),
    )
}

#[test]
fn comments_of_a_text(rt: HostRuntime) -> Result<(), Fail> {
    checks(
        &rt,
        b"# server 3\nhz 1000\n# server 3 first\n#server 3 first 7\n# server x first 7\n# server 3 first 7 on\n",
        b"replays 0\n",
        Ok(Verdict::Replays),
    )?;
    checks(
        &rt,
        b"hz 1000\n# server 3 first 07\n# server 4294967296 first 7\n# server 3 last 7\n## server 3 first 7\n",
        b"replays 0\n",
        Ok(Verdict::Replays),
    )
}

#[test]
fn beyond_not_recorded(rt: HostRuntime) -> Result<(), Fail> {
    checks(
        &rt,
        b"hz 1000 allow\n1 client 1 - 1 20 0 = ok\n1 add 1 7 1 0 0 = tags - 50 1000\n1 pull 0 = future 50\n",
        b"differs 2\n",
        Ok(Verdict::Differs(2)),
    )
}

#[test]
fn a_history(rt: HostRuntime) -> Result<(), Fail> {
    let config = QueueConfig::new(1000, 1 << 62, 1 << 62, AtLimit::Wait)?;
    let mut history: History<Event<TickTag>> = History::new(rt.alloc(), 2)?;
    for reply in [Reply::Nothing, Reply::Later(1)] {
        history.reserve_one()?;
        history.push_reserved(Event {
            worker: WorkerId(1),
            command: Command::Pull { at: Moment::zero() },
            reply,
        });
        let verdict = check(rt.alloc(), config, &history)?;
        let replays = reply == Reply::Nothing;
        assert_same(&rt, &(verdict == Verdict::Replays), &replays);
        assert_same(&rt, &(verdict == Verdict::Differs(1)), &!replays);
    }
    Ok(())
}
