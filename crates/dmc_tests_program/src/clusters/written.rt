//! The histories of a run, written as event texts and checked.
use super::setup::{Prompt, done, run, three_servers};
use crate::same::assert_same;
use dmc_check::check::Verdict;
use dmc_check::text::check_text;
use dmc_check::write::write_events;
use dmc_queue_history::history::EventHistory;
use dmc_text::script::ScriptFault;
use dmc_text::watched::Watched;
use dmc_text::write_line::write_config;
use dmc_tick::tick::TickTag;
use dmc_types::config::QueueConfig;
use std::alloc::{AllocError, Global};
use std::process::Abort;
use std::test::Fail;

/// The event text of a history.
fn text_of(
    alloc: Global,
    config: QueueConfig,
    history: &EventHistory<TickTag>,
) -> Result<Vec<u8>, Fail> {
    let mut text = Vec::new(alloc);
    write_config(config, &mut text)?;
    write_events(history, &mut text)?;
    Ok(text)
}

/// The verdict on a text, and what is written of it.
fn checked(alloc: Global, text: &[u8]) -> Result<(Verdict, Vec<u8>), Fail> {
    let mut reader = Watched::new(text);
    let mut writer = Watched::new(Vec::with_capacity(alloc, 32)?);
    match check_text::<TickTag, _, _>(alloc, &mut reader, &mut writer) {
        Ok(verdict) => Ok((verdict, writer.stream().clone()?)),
        Err(ScriptFault::Memory) => Err(AllocError.into()),
        Err(fault) => Err(fault.into()),
    }
}

/// The history's text replays, with as many events as the history has.
fn is_replayed<R: AllocGlobal + Abort>(
    rt: &R,
    config: QueueConfig,
    history: &EventHistory<TickTag>,
) -> Result<(), Fail> {
    let text = text_of(rt.alloc(), config, history)?;
    let (verdict, written) = checked(rt.alloc(), &text)?;
    assert_same(rt, &verdict, &Verdict::Replays);
    let line = format!(in rt.alloc(); "replays {}\n", history.len())?;
    assert_same(rt, &written.as_slice(), &line.as_bytes());
    Ok(())
}

#[test]
fn histories_written(rt: HostRuntime) -> Result<(), Fail> {
    let scene = three_servers(rt.alloc())?;
    let report = done(run(&rt, &scene, &Prompt))?;
    for row in &report.servers {
        is_replayed(&rt, scene.config(), &row.history)?;
    }
    Ok(())
}
