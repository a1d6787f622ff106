//! What no clause says: which words ask for what, and the texts of the faults.
use crate::runs::ROOM;
use crate::same::assert_same;
use dmc_scene::key::Key;
use dmc_text::cause::LineCause;
use dmc_text::watched::Watched;
use dmc_tool::fault::Fault;
use dmc_tool::fault_line::write_fault;
use dmc_tool::words::{Request, Tool, ToolCommand, WordsFault, read_words};
use dmc_types::config::TagKind;
use std::alloc::Global;
use std::process::Abort;
use std::test::Fail;

/// What is asked for, or nothing at a usage fault.
fn ask<'a>(alloc: Global, words: &'a [&'a str]) -> Result<Option<Request<'a>>, WordsFault> {
    match read_words(alloc, words) {
        Err(WordsFault::Usage) => Ok(None),
        answer => answer.map(Some),
    }
}

fn tool<'a>(command: ToolCommand, tags: TagKind) -> Option<Request<'a>> {
    let tool = Tool { command, tags };
    Some(Request::Tool {
        tool,
        file: None,
        is_explained: false,
        shows_progress: false,
    })
}

/// A tool on ticks that reads the file of this name.
fn tool_on(command: ToolCommand, name: &str) -> Option<Request<'_>> {
    let tool = Tool {
        command,
        tags: TagKind::Tick,
    };
    Some(Request::Tool {
        tool,
        file: Some(name),
        is_explained: false,
        shows_progress: false,
    })
}

/// The words ask for this, or for nothing.
fn asks<R: AllocGlobal + Abort>(
    rt: &R,
    words: &[&str],
    wanted: Option<Request<'_>>,
) -> Result<(), WordsFault> {
    let asked = ask(rt.alloc(), words)?;
    assert_same(rt, &asked, &wanted);
    Ok(())
}

/// Each of these words asks for nothing.
fn ask_for_none<R: AllocGlobal + Abort>(rt: &R, faults: &[&[&str]]) -> Result<(), WordsFault> {
    for words in faults {
        asks(rt, words, None)?;
    }
    Ok(())
}

#[test]
fn words_of_a_script(rt: HostRuntime) -> Result<(), Fail> {
    let ticks = tool(ToolCommand::Script, TagKind::Tick);
    let ratios = tool(ToolCommand::Script, TagKind::Ratio);
    asks(&rt, &["script"], ticks)?;
    asks(&rt, &["script", "--tags", "tick"], ticks)?;
    asks(&rt, &["script", "--tags", "ratio"], ratios)?;
    asks(&rt, &["script", "--tags=ratio"], ratios)?;
    Ok(())
}

#[test]
fn words_of_a_check(rt: HostRuntime) -> Result<(), Fail> {
    let ticks = tool(ToolCommand::Check, TagKind::Tick);
    let ratios = tool(ToolCommand::Check, TagKind::Ratio);
    asks(&rt, &["check"], ticks)?;
    asks(&rt, &["check", "--tags", "tick"], ticks)?;
    asks(&rt, &["check", "--tags", "ratio"], ratios)?;
    Ok(())
}

#[test]
fn words_of_a_simulation(rt: HostRuntime) -> Result<(), Fail> {
    asks(&rt, &["sim"], tool(ToolCommand::Sim, TagKind::Tick))?;
    asks(&rt, &["sim", "scene"], tool_on(ToolCommand::Sim, "scene"))?;
    Ok(())
}

#[test]
fn words_of_a_file(rt: HostRuntime) -> Result<(), Fail> {
    let script = tool_on(ToolCommand::Script, "check");
    asks(&rt, &["script", "check"], script)?;
    asks(&rt, &["script", "check", "--tags", "tick"], script)?;
    asks(&rt, &["script", "--tags", "tick", "check"], script)?;
    asks(&rt, &["script", "--", "check"], script)?;
    let file = tool_on(ToolCommand::Run, "--tags");
    asks(&rt, &["run", "--", "--tags"], file)?;
    Ok(())
}

/// Words that ask for nothing.
const FAULTS: &[&[&str]] = &[
    &[],
    &[""],
    &["serve"],
    &["scripts"],
    &["checks"],
    &["check", "--tags", "whole"],
    &["Script"],
    &["script", "one", "other"],
    &["script", "--tags"],
    &["script", "--tags", "whole"],
    &["script", "--tags", "tick", "--tags", "tick"],
    &["--tags", "tick", "script"],
    &["script", "--tag", "tick"],
    &["sim", "--tags", "tick"],
    &["--version", "script"],
    &["--version", "--version"],
    &["script", "--version"],
];

#[test]
fn usage_faults(rt: HostRuntime) -> Result<(), Fail> {
    Ok(ask_for_none(&rt, FAULTS)?)
}

/// Words that ask for help, of which there is none but the usage.
const HELP: &[&[&str]] = &[
    &["help"],
    &["-h"],
    &["--help"],
    &["script", "--help"],
    &["help", "script"],
];

#[test]
fn calls_for_help(rt: HostRuntime) -> Result<(), Fail> {
    Ok(ask_for_none(&rt, HELP)?)
}

#[test]
fn words_of_an_explanation(rt: HostRuntime) -> Result<(), Fail> {
    let tool = Tool {
        command: ToolCommand::Check,
        tags: TagKind::Ratio,
    };
    let check = Some(Request::Tool {
        tool,
        file: Some("events"),
        is_explained: true,
        shows_progress: false,
    });
    asks(
        &rt,
        &["check", "--explain", "--tags", "ratio", "events"],
        check,
    )?;
    asks(
        &rt,
        &["check", "events", "--tags=ratio", "--explain"],
        check,
    )?;
    asks(&rt, &["check", "--explain", "--explain"], None)?;
    asks(&rt, &["--explain", "check"], None)?;
    Ok(())
}

#[test]
fn words_of_progress(rt: HostRuntime) -> Result<(), Fail> {
    for command in [ToolCommand::Script, ToolCommand::Sim] {
        let tool = Tool {
            command,
            tags: TagKind::Tick,
        };
        let shown = Some(Request::Tool {
            tool,
            file: None,
            is_explained: false,
            shows_progress: true,
        });
        asks(&rt, &[command.name(), "--progress"], shown)?;
    }
    let tool = Tool {
        command: ToolCommand::Run,
        tags: TagKind::Tick,
    };
    let both = Some(Request::Tool {
        tool,
        file: Some("scene"),
        is_explained: true,
        shows_progress: true,
    });
    asks(&rt, &["run", "--progress", "scene", "--explain"], both)?;
    asks(&rt, &["run", "--progress", "--progress"], None)?;
    asks(&rt, &["--progress", "run"], None)?;
    asks(&rt, &["--version", "--progress"], None)?;
    Ok(())
}

#[test]
fn words_of_the_version(rt: HostRuntime) -> Result<(), Fail> {
    Ok(asks(&rt, &["--version"], Some(Request::Version))?)
}

// A run takes no option: its tags are those of the scene.
#[test]
fn words_of_a_run(rt: HostRuntime) -> Result<(), Fail> {
    asks(&rt, &["run"], tool(ToolCommand::Run, TagKind::Tick))?;
    asks(&rt, &["run", "--tags", "tick"], None)?;
    Ok(())
}

fn at_line(number: u64, cause: LineCause) -> Fault {
    Fault::Line { number, cause }
}

#[test]
fn fault_texts(rt: HostRuntime) -> Result<(), Fail> {
    let alloc = rt.alloc();
    let usage = "usage: dmclock script|check [--tags tick|ratio] | sim | run";
    let last = 1 << 32;
    let faults = [
        (Fault::from(WordsFault::Usage), usage, 2),
        (at_line(1, LineCause::Bytes), "dmclock: line 1 bytes", 1),
        (at_line(20, LineCause::Hz), "dmclock: line 20 hz", 1),
        (at_line(300, LineCause::Words), "dmclock: line 300 words", 1),
        (
            at_line(last, LineCause::Number),
            "dmclock: line 4294967296 number",
            1,
        ),
        (Fault::Read, "dmclock: read", 1),
        (Fault::Write, "dmclock: write", 1),
        (Fault::from(WordsFault::Memory), "dmclock: memory", 1),
        (Fault::SceneText, "dmclock: scene text", 1),
        (
            Fault::SceneMissing(Key::Id, Some(2)),
            "dmclock: scene missing id",
            1,
        ),
        (
            Fault::SceneKind(Key::Client, None),
            "dmclock: scene kind client",
            1,
        ),
        (
            Fault::SceneValue(Key::MaxPulls, None),
            "dmclock: scene value max_pulls",
            1,
        ),
        (Fault::Torn, "dmclock: torn", 1),
        (Fault::Range, "dmclock: refused range", 1),
        (Fault::TurnsOut, "dmclock: turns out", 4),
        (Fault::Stopped, "dmclock: stopped", 4),
    ];
    for (fault, text, status) in faults {
        let line = format!(in alloc; "{text}\n")?;
        let mut observed = Watched::new(Vec::with_capacity(alloc, ROOM)?);
        assert_same(&rt, &write_fault(fault, &mut observed), &status);
        assert_same(&rt, &observed.stream().as_slice(), &line.as_bytes());
    }
    Ok(())
}
